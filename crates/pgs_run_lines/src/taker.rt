ghost use Rattle.std.specs.Prelude.{◌≡◌, ◌∷◌, [], ◌+◌, ℕ, true, IfErr, OnOk, Result};
ghost use Rattle.pgs_world.specs.World.{View};
ghost use Rattle.pgs_run_lines.specs.Calls.{is_of_world, stops_of_world};
ghost use Rattle.pgs_run_lines.specs.Driving.{LineLeads, LineShows};
ghost use Rattle.pgs_run_lines.specs.Ending.{HasCause, HasAnyCause, faults_of};
ghost use Rattle.pgs_run_lines.specs.Machine.{Machine, Rule, AtEnd, HasRoomFor, WhereTold, extent_of, scene_of};
ghost use Rattle.pgs_run_lines.specs.Pieces.{shown_of};
ghost use Rattle.pgs_run_lines.specs.Run.{EndsWhere};

use crate::stop::Stop;
use pgs_world::World;
use std::alloc::Global;

/// A command that takes lines. It makes its pieces, puts them and does its work on the areas by itself.
pub trait LineTaker {
    /// How it may end a run by itself.
    type Status;

    /// What it does at each line, and what it tells.
    ghost machine: { Machine Self.Status };

    /// What it may do to a world.
    ghost rule: { Rule machine };

    /// Where it stands.
    ghost stands: { Self → machine.State };

    /// What it keeps beside that.
    ghost kept: { Self → rule.Kept };

    /// Takes an ended line, of which this is the front, and puts what it tells. After an error the value isn't used any more.
    fn end_line<W: World>(
        &mut self,
        alloc: Global,
        world: &mut W,
        line: &[u8],
    ) -> Result<(), Stop<Self::Status>>
        requires room { HasRoomFor machine 1 (stands self.old) }
        requires holds { rule.holds (stands self.old) (W.view world.old) }
        ensures leads { LineLeads machine (stands self.old) line.now (stands self.new) result }
        ensures shows { WhereTold rule.tells (LineShows (shown_of (W.view world.old)) (machine.line (stands self.old) line.now).pieces result (shown_of (W.view world.new))) }
        ensures room { OnOk result ((lines : ℕ) → machine.HasRoom (lines + 1) (stands self.old) → machine.HasRoom lines (stands self.new)) }
        ensures holds { OnOk result (rule.holds (stands self.new) (W.view world.new)) }
        ensures allows { rule.allows (stands self.old) (line.now ∷ []) (extent_of result) (scene_of (W.view world.old) (kept self.old)) (scene_of (W.view world.new) (kept self.new)) }
        ensures cause { HasAnyCause (faults_of 0 (W.view world.old)) (faults_of 0 (W.view world.new)) result }
        ensures last { stops_of_world result ≡ true → W.failed world.new }
        ensures may { IfErr result (λ stop. machine.MayStop stop) };

    /// Ends the input, whose rest behind the last line feed has this front, and puts what that tells.
    fn end_input<W: World>(
        &mut self,
        alloc: Global,
        world: &mut W,
        rest: &[u8],
    ) -> Stop<Self::Status>
        requires room { HasRoomFor machine 1 (stands self.old) }
        requires holds { rule.holds (stands self.old) (W.view world.old) }
        ensures ends { EndsWhere rule.tells (shown_of (W.view world.old)) (machine.rest (stands self.old) rest.now) result (shown_of (W.view world.new)) }
        ensures allows { rule.allows (stands self.old) [] (AtEnd rest.now result) (scene_of (W.view world.old) (kept self.old)) (scene_of (W.view world.new) (kept self.new)) }
        ensures cause { HasCause (faults_of 0 (W.view world.old)) (faults_of 0 (W.view world.new)) result }
        ensures last { is_of_world result ≡ true → W.failed world.new }
        ensures may { machine.MayStop result };

    /// The status at the end of the budget.
    fn end_budget(&self) -> Self::Status
        ensures { result ≡ machine.cut (stands self.now) };
}
