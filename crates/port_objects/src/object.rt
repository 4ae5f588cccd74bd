//! The objects of the bus.

use area_objects::AreaObject;
use bundle_objects::Bundle;
use clock_objects::Ticks;
use data_objects::Group;
use machine_objects::MachineObject;
use queue_objects::QueueGroup;
use server_objects::ServerObject;

/// What calls of the bus share: at most one of these is touched by an entry. There is a case for each kind of object.
#[derive(Drop)]
pub enum Object {
    /// A group of joined unqueued data elements, or a variable.
    Unqueued(Group),
    /// Groups of joined unqueued data elements that coherent access lists connect.
    Bundle(Bundle),
    /// A group of joined queued data elements.
    Queued(QueueGroup),
    /// A server with the points that call it.
    Server(ServerObject),
    /// An exclusive area.
    Area(AreaObject),
    /// A mode machine.
    Machine(MachineObject),
    /// The clock.
    Clock(Ticks),
}
