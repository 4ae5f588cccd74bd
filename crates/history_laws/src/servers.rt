//! Laws of calls: what becomes of requests, and who waits for an answer.

ghost use Rattle.std.specs.Prelude.{◌≡◌, ◌==◌, ℕ, true, Some, slice_get};
ghost use Rattle.bus_semantics.specs.Common.{ActKey, Plan, server_of, History, noted, runs, to_hear, next_wish, direct_key, asked_last, caller_has_asked, plain_key, has_unstarted};
ghost use Rattle.bus_semantics.specs.Common.{is_outstanding, IsLegal, IsSound};
ghost use Rattle.bus_laws.specs.Common.{ServerPlan, Mapping};
ghost use Rattle.history_laws.specs.Callers.{CallerWaits};
ghost use Rattle.history_laws.specs.Serving.{IsOpen, IsQueuedOrServed, IsBegunOrServed};

/// A request that is neither taken nor returned, at a point of a queued server, is waited for: some request of the server has
/// not started, or the server's activation runs with this one. At a point of a direct server: its activation starts next, right
/// after the caller's ask, or runs (SWS_RTE: Rte_Call).
pub fn requests_have_servers()
    ensures queued { (p : Plan) (m : Mapping) (h : History) (point server : ℕ) (v : ServerPlan) (length : ℕ) → IsSound p m → IsLegal p h →
        server_of p point ≡ Some server → slice_get p.servers server ≡ Some v → v.queue ≡ Some length → IsOpen point h →
        IsQueuedOrServed p server point (plain_key v.runnable) h }
    ensures direct { (p : Plan) (m : Mapping) (h : History) (point : ℕ) (k : ActKey) → IsSound p m → IsLegal p h →
        direct_key p point ≡ Some k → IsOpen point h → IsBegunOrServed p point k h }
    ensures unstarted { (p : Plan) (m : Mapping) (h : History) (point : ℕ) (k : ActKey) → IsSound p m → IsLegal p h →
        direct_key p point ≡ Some k → has_unstarted (λ q. point == q) (noted h) ≡ true → caller_has_asked p h k ≡ true }
{}

/// While a direct activation runs, and while a request at its point has not started, the caller waits: its last entry is the ask
/// there, and the activation has not ended since (SWS_RTE: Rte_Call).
pub fn direct_callers_wait()
    ensures running { (p : Plan) (m : Mapping) (h : History) (point : ℕ) (k : ActKey) → IsSound p m → IsLegal p h →
        direct_key p point ≡ Some k → runs k h ≡ true → CallerWaits p point k h }
    ensures unstarted { (p : Plan) (m : Mapping) (h : History) (point : ℕ) (k : ActKey) → IsSound p m → IsLegal p h →
        direct_key p point ≡ Some k → has_unstarted (λ q. point == q) (noted h) ≡ true → CallerWaits p point k h }
{}

/// The last entry of an activation that wants to hear an answer is its accepted ask at that point, and the point's request is
/// outstanding (SWS_RTE: Rte_Call, synchronous).
pub fn hearers_have_asked()
    ensures asked { (p : Plan) (m : Mapping) (h : History) (k : ActKey) (point : ℕ) → IsSound p m → IsLegal p h →
        next_wish p h k ≡ Some (to_hear point) → asked_last k h ≡ Some point }
    ensures outstanding { (p : Plan) (m : Mapping) (h : History) (k : ActKey) (point : ℕ) → IsSound p m → IsLegal p h →
        next_wish p h k ≡ Some (to_hear point) → is_outstanding point (noted h) ≡ true }
{}
