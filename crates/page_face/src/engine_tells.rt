// What an engine tells. It has no calls, so that a record of specs/ can take all that it tells as one value.
ghost use Rattle.std.specs.Prelude.{◌≡◌, ℕ, ◌≤◌, List, length, Contains, Option, IsSome, true};
ghost use Rattle.page_spec.specs.PageMap.{PageMap, page_sizes};
ghost use Rattle.crash_spec.specs.Opening.{Opening};
ghost use Rattle.engine_spec.specs.declared.pins.Pin.{Pin};
ghost use Rattle.engine_spec.specs.TwoLogs.{TwoLogs, AreLogs};
ghost use Rattle.engine_spec.specs.State.{EngineState};
ghost use Rattle.engine_spec.specs.Leaves.{may_recover, RecoversNow};
ghost use Rattle.engine_spec.specs.Good.{HasSizes, RunsFrom};
ghost use Rattle.page_face.specs.Pins.{IsLive};

use crate::Means;

/// What a store of page maps tells. It has no calls: [`Engine`](crate::Engine) has them.
///
/// What is said of all first maps, or of all openings, can't be a field of what is told. So these are members, and clauses bind them.
pub trait EngineTells<M: Means> {
    /// What the engine tells of itself, as it last told it.
    ghost state: { Self → EngineState };

    /// The engine is whole, and its pins that hold now are those of such a list, in which equal pins may stand several times.
    ghost live: { Self → List Pin → Type 0 };

    /// The map of a pin that holds, where the engine tells its bytes.
    ghost map_at: { Self → Pin → Option PageMap };

    /// The first maps from which the engine stands for a run.
    ghost stands_from: { Self → PageMap → Type 0 };

    /// The openings of its disk since which the disk holds what the engine holds; any one, where it has no disk that tells its bytes.
    ghost opened: { Self → Opening → Type 0 };

    /// A transaction may begin now.
    ghost may_begin: { Self → Type 0 };

    /// The names of the references that the engine holds.
    ghost loans: { Self → List ℕ };

    /// The newest map has as many pages as the engine says, all of its page size.
    ghost newest_sizes: { (engine : Self) (pins : List Pin) (pages : PageMap) → live engine pins → (state engine).newest ≡ Option.Some pages
        → HasSizes pages (state engine).size (state engine).page_size };

    /// So has the map of a pin that holds.
    ghost pinned_sizes: { (engine : Self) (pin : Pin) (pages : PageMap) → IsLive live engine pin → map_at engine pin ≡ Option.Some pages
        → HasSizes pages pin.size (state engine).page_size };

    /// The map of a pin that holds is told where the newest map is.
    ghost tells: { (engine : Self) (pin : Pin) → IsLive live engine pin → IsSome (state engine).newest → IsSome (map_at engine pin) };

    /// A pin that holds is of a commit that is there, and its map has a page.
    ghost bounds: { (engine : Self) (pin : Pin) → IsLive live engine pin → (pin.n ≤ length (state engine).history) × (1 ≤ pin.size) };

    /// The engine's own commits are in its history, whose commits are numbered from 1.
    ghost own_there: { (engine : Self) (pins : List Pin) (number : ℕ) → live engine pins → Contains (state engine).own number
        → (1 ≤ number) × (number ≤ length (state engine).history) };

    /// The page size is a legal one, and of each page so many bytes are in use, at least 480.
    ghost legal: { (engine : Self) (pins : List Pin) → live engine pins → Contains page_sizes (state engine).page_size
        × (480 ≤ (state engine).usable) × ((state engine).usable ≤ (state engine).page_size) };

    /// Logs that are told stand for the history.
    ghost are_logs: { (engine : Self) (pins : List Pin) (logs : TwoLogs) → live engine pins → (state engine).logs ≡ Option.Some logs
        → AreLogs logs (state engine).history };

    /// What standing for a run means.
    ghost run: { (engine : Self) (first : PageMap) → stands_from engine first
        → RunsFrom (M.sound first) (M.leads first) first (state engine) (IsLive live engine) (map_at engine) };

    /// Where a transaction may always begin, it may begin now.
    ghost begins_now: { (engine : Self) → (state engine).always_begins ≡ true → may_begin engine };

    /// What a crash leaves now: the newest map, or the one that a commit would have made whose log write failed.
    ghost recovers: { (engine : Self) (opening : Opening) → opened engine opening
        → RecoversNow opening (may_recover (state engine)) (state engine).disk };
}
