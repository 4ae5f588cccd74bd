//! The queue of a server, which a direct one does not have.

ghost use Rattle.std.specs.Prelude.{◌≡◌, None, Some, is_some, slice_get};
ghost use Rattle.client_server.specs.Queue.{after_first, after_queueing, has_place_in, waiting_in};

use circular_buffer::HeapCircularBuffer;

/// The points whose requests wait, the oldest first; none for a direct server.
pub(crate) type Waiting = Option<HeapCircularBuffer<u32>>;

/// Puts a point behind those that wait. False if the queue is full; a direct server takes any.
pub(crate) fn queue_up(waiting: &mut Waiting, point: u32) -> bool
    ensures answer { result ≡ has_place_in waiting.old }
    ensures kept { waiting.new ≡ after_queueing point waiting.old }
{
    match waiting {
        Some(ring) => ring.try_push_back(point).is_ok(),
        None => true,
    }
}

/// Takes the point that waits longest.
pub(crate) fn take_first(waiting: &mut Waiting) -> Option<u32>
    ensures first { result ≡ slice_get (waiting_in waiting.old) 0 }
    ensures kept { waiting.new ≡ after_first waiting.old }
{
    match waiting {
        Some(ring) => ring.pop_front(),
        None => None,
    }
}

/// Whether a point waits.
pub(crate) fn has_first(waiting: &Waiting) -> bool
    ensures { result ≡ is_some (slice_get (waiting_in waiting.now) 0) }
{
    match waiting {
        Some(ring) => !ring.is_empty(),
        None => false,
    }
}
