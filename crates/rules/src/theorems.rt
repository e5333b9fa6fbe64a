// The laws of a run: each function's contract is a law of every run on every table.
ghost use Rattle.std.specs.Prelude.{List};
ghost use Rattle.rules.specs.Accounts.{AllProper, BegunCounted, GivenAtMost, GivenExactly, HoldsFew, IdleOnlyIfNothingPends, InOrder, MissIsLate, MostUrgentRuns, NothingLost, NumbersFit, PutsAcceptedIfRunning, ReleasedOnTime, TimeAccounted, WaitingLawful};
ghost use Rattle.sheet.specs.declared.row.Row.{Row};
ghost use Rattle.rules.specs.Deadlines.{DeadlinesFollow};
ghost use Rattle.rules.specs.Demand.{BoundedIsPunctual, DeviBounds};
ghost use Rattle.rules.specs.Examples.{Answered, Asked, Closed, CountedOut, Examples, Missing, Numbered};
ghost use Rattle.rules.specs.Lines.{LinesTell};
ghost use Rattle.rules.specs.Progress.{CallsInOrder, EveryQuestion, Steps};
ghost use Rattle.rules.specs.Promises.{DeadlinesMet, EveryClosing, EveryRun, FewInterruptions, InTime, Punctual, Running, RunsWhileInTime};
ghost use Rattle.rules.specs.State.{State};

// Worked runs.
pub fn worked_runs()
    ensures runs { Examples }
    ensures answered { Answered }
    ensures missing { Missing }
    ensures asked { Asked }
    ensures closed { Closed }
    ensures counted { CountedOut }
    ensures numbered { Numbered }
{}

// What Devi's test admits has bounded demand.
pub fn devi_bounds_demand()
    ensures { DeviBounds }
{}

// Earliest deadline first, with holds, meets every deadline where demand is bounded.
pub fn bounded_demand_is_punctual()
    ensures { BoundedIsPunctual }
{}

// An admitted table never misses a deadline.
pub fn admitted_tables_are_punctual()
    ensures { Punctual }
{}

// On an admitted table every deadline that has come is met.
pub fn admitted_tables_meet_their_deadlines()
    ensures { DeadlinesMet }
{}

// On every table interruptions are fewer than jobs begun once a job has begun, and none before.
pub fn interruptions_are_few()
    ensures { FewInterruptions }
{}

// What is promised of every closing.
pub fn closings_keep_the_promise()
    ensures { EveryClosing }
{}

// On every table, as long as the bench runs.
pub fn a_running_bench_is_in_time()
    ensures { EveryRun (λ rows s. Running rows s → InTime rows s) }
{}

// On every table a bench is stopped exactly when a deadline is not met, and its miss is the most urgent late job.
pub fn a_bench_stops_when_a_deadline_is_missed()
    ensures while_in_time { EveryRun RunsWhileInTime }
    ensures miss_is_late { EveryRun MissIsLate }
{}

// A bench goes on as long as it may: no rule of a run is empty because steps are refused.
pub fn steps_are_done_or_refused_in_order()
    ensures { EveryRun Steps }
{}

// Jobs are released on time, none is lost, and those of a task are done in the order of their releases.
pub fn pending_jobs_are_the_released_and_not_done()
    ensures on_time { EveryRun ReleasedOnTime }
    ensures nothing_lost { EveryRun NothingLost }
    ensures in_order { EveryRun InOrder }
    ensures proper { EveryRun AllProper }
{}

// The waiting list is always one that a queue can have.
pub fn waiting_jobs_are_lawful()
    ensures { EveryRun WaitingLawful }
{}

// No job holds longer than its row allows.
pub fn holds_are_few()
    ensures { EveryRun HoldsFew }
{}

// A job that runs without being held is the most urgent.
pub fn the_most_urgent_job_runs()
    ensures { EveryRun MostUrgentRuns }
{}

// A queue never refuses a job of a run.
pub fn puts_are_never_refused()
    ensures { EveryRun PutsAcceptedIfRunning }
{}

// Every number stays within 32 bits.
pub fn numbers_fit()
    ensures { EveryRun NumbersFit }
{}

// Jobs begun are those that have had a tick.
pub fn begun_jobs_have_had_a_tick()
    ensures { EveryRun BegunCounted }
{}

// Clock, idle ticks and interruptions can be counted from the tick lines alone.
pub fn lines_tell_the_counts()
    ensures { LinesTell }
{}

// Every tick was given to a task, or nothing was pending; the latter in any state, whether a run leaves it or not.
pub fn every_tick_is_accounted_for()
    ensures idle_or_given { EveryRun TimeAccounted }
    ensures idle_if_nothing { EveryRun IdleOnlyIfNothingPends }
    ensures idle_in_any_state { (rows : List Row) (s : State) → IdleOnlyIfNothingPends rows s }
{}

// A job gets at most its units, and exactly them unless it is ended early.
pub fn jobs_get_their_units()
    ensures at_most { EveryRun GivenAtMost }
    ensures exactly { GivenExactly }
{}

// Questions alter nothing, and a run makes its calls in order.
pub fn calls_are_made_in_order()
    ensures question { EveryQuestion }
    ensures calls { CallsInOrder }
{}

// A deadline comes D ticks after its release.
pub fn deadlines_follow_releases()
    ensures { (r : Row) → DeadlinesFollow r }
{}
