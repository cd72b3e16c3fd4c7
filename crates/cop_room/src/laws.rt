//! What holds of streams that ask more of a bus, whatever they are.

ghost use Rattle.std.specs.Prelude.{◌≡◌, ◌↔◌, Some, ◌+◌, ℕ, ◌<◌, ◌≤◌, Bool, List, ◌∷◌, ◌++◌, length};
ghost use Rattle.cop_frame.specs.declared.rates.Rate.{Rate};
ghost use Rattle.cop_rta.specs.declared.streams.Stream.{Stream};
ghost use Rattle.cop_rta.specs.Entries.{Entry};
ghost use Rattle.cop_rta.specs.Streams.{AreDistinct};
ghost use Rattle.cop_rta.specs.Test.{StreamPlace, Passes, place_by_id, of_stream, jitter_of, sync_response, IsOnTime};
ghost use Rattle.cop_cert.specs.Assignments.{IsPassing, NoAssignmentPasses};
ghost use Rattle.cop_rta.specs.Greatest.{AreSynced, HasGreatest};
ghost use Rattle.cop_net.specs.Network.{Net, IsNetwork};
ghost use Rattle.cop_plan.specs.Plans.{IsPlan};
ghost use Rattle.cop_plan.specs.Values.{PlanValue, ArePdosHigh, HaveDeadlines};
ghost use Rattle.cop_room.specs.declared.rooms.Room.{Room};
ghost use Rattle.cop_room.specs.Room.{IsRoom};
ghost use Rattle.cop_room.specs.Whole.{AreInMicroseconds, AreLimits};
ghost use Rattle.cop_room.specs.Harder.{AreHarder, AreAmong, ArePlannedAmong, past_one};
ghost use Rattle.cop_room.specs.Changes.{AreChanged, IsHarderChange, at_row, with_period, with_jitter, with_bytes, with_deadline, with_pace, with_sync_period, with_periods, with_times};
ghost use Rattle.cop_room.specs.Keeping.{AllStillPass, CanBePlanned, GetHarderUp, GetHarderDown, EndsAbove, EndsBelow, IsGreatestLimit, IsLeastLimit};

/// What passes among harder streams, with the same above it and no less ahead, passes among easier ones.
pub fn harder_places_pass_less()
    ensures { (streams harder : List Stream) (above : ℕ → Bool) (index : ℕ) (rate : Rate) (ahead more : ℕ) → AreHarder streams harder → index < length streams → ahead ≤ more
        → Passes (record { streams = harder; above = above; index = index; rate = rate; ahead = more })
        → Passes (record { streams = streams; above = above; index = index; rate = rate; ahead = ahead }) }
{}

/// And where it has a greatest response among the harder ones, it has one among the easier ones that is no later, and sooner by no less than
/// its own jitter is shorter.
pub fn harder_places_respond_later()
    ensures { (streams harder : List Stream) (above : ℕ → Bool) (index : ℕ) (rate : Rate) (ahead more u : ℕ) → AreHarder streams harder → index < length streams → ahead ≤ more
        → HasGreatest (record { streams = harder; above = above; index = index; rate = rate; ahead = more }) u
        → (r : ℕ) × HasGreatest (record { streams = streams; above = above; index = index; rate = rate; ahead = ahead }) r × (r ≤ u)
        × (r + of_stream (jitter_of more) harder index ≤ u + of_stream (jitter_of ahead) streams index) }
{}

/// Where SYNC has a response among harder streams, it has one among the easier ones, no later.
pub fn harder_sync_responds_later()
    ensures { (streams harder : List Stream) (rate : Rate) (u : ℕ) → AreHarder streams harder → sync_response harder rate ≡ Some u
        → (r : ℕ) × (sync_response streams rate ≡ Some r) × (r ≤ u) }
{}

/// A stream that has a greatest response passes exactly with a deadline no sooner, or none: the response is how far the deadline can fall.
pub fn greatest_response_decides()
    ensures { (p : StreamPlace) (r : ℕ) → p.index < length p.streams → HasGreatest p r → (Passes p ↔ IsOnTime p r) }
{}

/// A stream that passes by identifier among streams each of which asks no less, itself too, passes: with SYNC's response of each of
/// the two ahead of the synchronous ones.
pub fn harder_streams_pass_less()
    ensures { (streams harder : List Stream) (rate : Rate) (k : ℕ) → AreHarder streams harder → k < length streams
        → Passes (place_by_id harder k rate) → Passes (place_by_id streams k rate) }
{}

/// A stream that passes by identifier among more streams passes among some of them, each of which asks no more: also where one alone is
/// left out.
pub fn fewer_streams_pass()
    ensures some { (streams more : List Stream) (place : ℕ → ℕ) (rate : Rate) (k : ℕ) → AreDistinct more → AreAmong streams more place → k < length streams
        → Passes (place_by_id more (place k) rate) → Passes (place_by_id streams k rate) }
    ensures one { (left right : List Stream) (s : Stream) (rate : Rate) (k : ℕ) → AreDistinct (left ++ s ∷ right) → k < length (left ++ right)
        → Passes (place_by_id (left ++ s ∷ right) (past_one (length left) k) rate) → Passes (place_by_id (left ++ right) k rate) }
{}

/// What is planned for more streams, PDOs and fixed frames, passes for some of them: under the identifiers that they have, and under
/// those of an assignment.
pub fn fewer_plans_pass()
    ensures kept { (streams more : List Stream) (rate : Rate) (pdos more_pdos : ℕ) (place : ℕ → ℕ) → AreDistinct more → ArePlannedAmong streams more pdos more_pdos place
        → AllStillPass rate more_pdos more → AllStillPass rate pdos streams }
    ensures assigned { (rate : Rate) (streams more : List Stream) (pdos more_pdos : ℕ) (place ids : ℕ → ℕ) → AreDistinct more → ArePlannedAmong streams more pdos more_pdos place
        → ArePdosHigh more more_pdos → IsPassing rate more more_pdos ids → IsPassing rate streams pdos (λ p. ids (place p)) }
{}

/// Where all that are tested pass among streams each of which asks no less, they pass.
pub fn harder_plans_pass_less()
    ensures { (streams harder : List Stream) (rate : Rate) (pdos : ℕ) → AreHarder streams harder → pdos ≤ length streams
        → AllStillPass rate pdos harder → AllStillPass rate pdos streams }
{}

/// An assignment of identifiers that passes for streams each of which asks no less passes; so where none passes, none passes for those.
pub fn harder_assignments_pass_less()
    ensures some { (rate : Rate) (streams harder : List Stream) (pdos : ℕ) (ids : ℕ → ℕ) → AreHarder streams harder → pdos ≤ length streams → ArePdosHigh streams pdos
        → IsPassing rate harder pdos ids → IsPassing rate streams pdos ids }
    ensures none { (rate : Rate) (streams harder : List Stream) (pdos : ℕ) → AreHarder streams harder → pdos ≤ length streams → ArePdosHigh streams pdos
        → NoAssignmentPasses rate streams pdos → NoAssignmentPasses rate harder pdos }
{}

/// A lower period, a higher jitter, more bytes and a lower deadline of one stream ask more, so does a lower period of SYNC with all
/// synchronous streams, and so do fewer thousandths of all periods, or of all periods and deadlines.
pub fn changes_get_harder()
    ensures period { (row : ℕ) → GetHarderDown (λ x. at_row row (with_period x)) }
    ensures jitter { (row : ℕ) → GetHarderUp (λ x. at_row row (with_jitter x)) }
    ensures bytes { (row : ℕ) → GetHarderUp (λ x. at_row row (with_bytes x)) }
    ensures deadline { (row : ℕ) → GetHarderDown (λ x. at_row row (with_deadline x)) }
    ensures pace { (row : ℕ) → GetHarderDown (λ x. at_row row (with_pace x)) }
    ensures sync { GetHarderDown with_sync_period }
    ensures periods { GetHarderDown with_periods }
    ensures times { GetHarderDown with_times }
{}

/// Of two changes of the same streams, the one that asks more of each gives streams that ask more.
pub fn changed_streams_are_harder()
    ensures { (change harder : ℕ → Entry → Entry) (streams first second : List Stream) → IsHarderChange change harder → AreChanged change streams first
        → AreChanged harder streams second → AreHarder first second }
{}

/// Where something ends at a number, holding for it and not for the next one, that is how far the number can go: with the identifiers
/// that the streams have, and with identifiers chosen anew.
pub fn limit_by_neighbours()
    ensures greatest { (change : ℕ → ℕ → Entry → Entry) (rate : Rate) (streams : List Stream) (pdos most x : ℕ) → GetHarderUp change → pdos ≤ length streams
        → EndsAbove (AllStillPass rate pdos) change streams most x → IsGreatestLimit (AllStillPass rate pdos) change streams most x }
    ensures least { (change : ℕ → ℕ → Entry → Entry) (rate : Rate) (streams : List Stream) (pdos least x : ℕ) → GetHarderDown change → pdos ≤ length streams
        → EndsBelow (AllStillPass rate pdos) change streams least x → IsLeastLimit (AllStillPass rate pdos) change streams least x }
    ensures greatest_anew { (change : ℕ → ℕ → Entry → Entry) (rate : Rate) (streams : List Stream) (pdos most x : ℕ) → GetHarderUp change → pdos ≤ length streams
        → EndsAbove (CanBePlanned rate pdos) change streams most x → IsGreatestLimit (CanBePlanned rate pdos) change streams most x }
    ensures least_anew { (change : ℕ → ℕ → Entry → Entry) (rate : Rate) (streams : List Stream) (pdos least x : ℕ) → GetHarderDown change → pdos ≤ length streams
        → EndsBelow (CanBePlanned rate pdos) change streams least x → IsLeastLimit (CanBePlanned rate pdos) change streams least x }
{}

/// A plan of tables passes with its own numbers: the streams of a network are in whole microseconds, and so are those of its plans, and where streams are
/// and all that are tested pass, each number of their room is a limit with no premise.
pub fn planned_numbers_pass()
    ensures network { (n : Net) → IsNetwork n → AreInMicroseconds n.set }
    ensures plan { (rates : List Rate) (streams : List Stream) (pdos : ℕ) (plan : PlanValue) → AreInMicroseconds streams → IsPlan rates streams pdos plan → AreInMicroseconds plan.streams }
    ensures room { (rate : Rate) (streams : List Stream) (pdos : ℕ) (room : Room) → AllStillPass rate pdos streams → AreInMicroseconds streams → AreSynced streams → AreDistinct streams
        → HaveDeadlines streams pdos → pdos ≤ length streams → IsRoom rate streams pdos room → AreLimits rate streams pdos room }
{}
