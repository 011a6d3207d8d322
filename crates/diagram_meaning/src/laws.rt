ghost use Rattle.diagram_meaning.specs.Laws.{LoopFreeHasOneRun, OutputRestsOnNeeds};
ghost use Rattle.diagram_meaning.specs.ResolvedLaws.{CyclesHaveTicks, HitsRepeat, PeriodsDivideCycle, ResolvedCyclesAreShort, ResolvedRowsAreNarrow, TimeIsOne, TypeIsFollowed};
ghost use Rattle.diagram_meaning.specs.RunLaws.{MemoriesAreFull, OffIsNotActive, OwnRowsStandIn, RunsHaveTicks, TicksHaveRows};
ghost use Rattle.diagram_meaning.specs.SystemRuns.{ChildrenMeetParents, RunsAreOfSystems};
ghost use Rattle.diagram_meaning.specs.TimeLaws.{InputTimesAreOne, InputTimesAreThere, TablesHaveTimes, TimeRefusalIsOne, TimeRefusalIsThere, TimesAreOne, TimesAreThere};

/// A diagram without a loop has exactly one run over each trace.
pub fn one_run()
    ensures { LoopFreeHasOneRun }
{}

/// An output's value rests on what came before and on the inputs that it needs.
pub fn output_rests()
    ensures { OutputRestsOnNeeds }
{}

/// The equations hold at each tick of a run.
pub fn runs_have_ticks()
    ensures { RunsHaveTicks }
{}

/// At each tick each row has its equation.
pub fn ticks_have_rows()
    ensures { TicksHaveRows }
{}

/// A delay remembers as many numbers as it is long.
pub fn memories_are_full()
    ensures { MemoriesAreFull }
{}

/// A row of a subsystem inside a system is inside that too, and is in what is around its subsystem.
pub fn own_rows_stand_in()
    ensures { OwnRowsStandIn }
{}

/// A run of the root, or of any system, is for each system within it a run of that system, from the values on its inputs and
/// controls, where the activity of the system around it, and what is off around it, are as given.
pub fn runs_are_of_systems()
    ensures { RunsAreOfSystems }
{}

/// A child of a system within meets the activity of that system and what is off in it or around it, and reads its values.
pub fn children_meet_parents()
    ensures { ChildrenMeetParents }
{}

/// Where a subsystem is off, nothing inside it is active.
pub fn off_is_not_active()
    ensures { OffIsNotActive }
{}

/// A row's type is the one that is met by following as many rules as there are rows.
pub fn type_is_followed()
    ensures { TypeIsFollowed }
{}

/// A row has at most one sample time.
pub fn time_is_one()
    ensures { TimeIsOne }
{}

/// In a resolved table each row needs at most 62 bits.
pub fn resolved_rows_are_narrow()
    ensures { ResolvedRowsAreNarrow }
{}

/// All hits of a resolved table repeat after at most 2^30 base ticks.
pub fn resolved_cycles_are_short()
    ensures { ResolvedCyclesAreShort }
{}

/// All hits of a resolved table repeat after at least one base tick.
pub fn resolved_cycles_have_ticks()
    ensures { CyclesHaveTicks }
{}

/// The period of each row divides the cycle after which all hits repeat.
pub fn periods_divide_cycle()
    ensures { PeriodsDivideCycle }
{}

/// A row is hit at a tick exactly where it is at that tick's place in the cycle.
pub fn hits_repeat()
    ensures { HitsRepeat }
{}

/// A table has at most one set of sample times.
pub fn times_are_one()
    ensures { TimesAreOne }
{}

/// A table has sample times exactly where each written offset is below its period.
pub fn times_are_there()
    ensures { TimesAreThere }
{}

/// Each table that a model file can have has sample times.
pub fn tables_have_times()
    ensures { TablesHaveTimes }
{}

/// The inputs of a table's rows give at most one list of times.
pub fn input_times_are_one()
    ensures { InputTimesAreOne }
{}

/// The inputs of each table's rows give times.
pub fn input_times_are_there()
    ensures { InputTimesAreThere }
{}

/// Of what is wrong with the times of a table there is at most one first.
pub fn time_refusal_is_one()
    ensures { TimeRefusalIsOne }
{}

/// Each table has a first of what is wrong with its times, or nothing wrong with them.
pub fn time_refusal_is_there()
    ensures { TimeRefusalIsThere }
{}
