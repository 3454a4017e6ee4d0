//! Laws of the desk's definitions.

ghost use Rattle.std.specs.Prelude.{◌≡◌, ◌≢◌, ℕ, true, false, List, Some, slice_get};
ghost use Rattle.fork_format.specs.Content.{Content};
ghost use Rattle.script_text.specs.declared.job.Event.{Event};
ghost use Rattle.script_text.specs.declared.job.Act.{Act};
ghost use Rattle.desk.specs.declared.job.App.{App};
ghost use Rattle.desk.specs.Alone.{IsPlaceOf};
ghost use Rattle.desk.specs.Outcome.{Launched, Outcome, steps_shown};
ghost use Rattle.desk.specs.Halting.{IsLeft};
ghost use Rattle.desk.specs.Desk.{Place, State, acted_at, launched_at, any_runs, rested};
ghost use Rattle.desk.specs.Desk.{after_events, told};
ghost use Rattle.desk.specs.Job.{opening, start_of};

/// Whatever the events were, each application at the desk is what it is alone. If it runs, its
/// state and its transcript are those that it has alone after the same number of steps, in a
/// partition of the same size; if it has ended, what it left is what it leaves alone. The events of
/// other applications, and the windows, have no part in that.
pub fn the_desk_seen_from_one_application_is_that_application_alone()
    ensures { (memory : ℕ) (system : Content) (apps : List App) (events : List Event) (i : ℕ)
        (app : App) (p : Place)
        → slice_get apps i ≡ Some app
        → slice_get (after_events events (opening memory system apps)).places i ≡ Some p
        → IsPlaceOf system app p }
{}

/// Two applications, of one desk or of two, leave the same if they have the same resources and
/// script, were launched in partitions of the same size, took the same number of steps, and were
/// both asked to quit or both not: their transcripts and files depend on nothing else.
pub fn what_an_application_leaves_is_its_own()
    ensures { (first second : Content) (a b : App) (p q : Place) (l m : Launched)
        → IsPlaceOf first a p → IsPlaceOf second b q → start_of first a ≡ start_of second b
        → a.script ≡ b.script
        → (told p).launched ≡ Some l → (told q).launched ≡ Some m
        → l.size ≡ m.size → l.steps ≡ m.steps → l.asked ≡ m.asked → l ≡ m }
{}

/// A run of a job that the host stops is known by the number of events and the number of steps that
/// were completed: two such runs that have these numbers in common leave the same. Within a turn or
/// a rest no two states have as many steps.
pub fn a_stopped_run_is_known_by_its_steps()
    ensures { (memory : ℕ) (system : Content) (apps : List App)
        (events : List Event) (o q : Outcome)
        → IsLeft o events (opening memory system apps)
        → IsLeft q events (opening memory system apps)
        → o.stopped ≡ true → q.stopped ≡ true → o.done ≡ q.done
        → steps_shown o.apps ≡ steps_shown q.apps → o ≡ q }
{}

/// Whatever the state of the desk, no application runs after a rest: the bound on the number of
/// rounds is never too small.
pub fn no_application_runs_after_a_rest()
    ensures { (s : State) → any_runs (rested s) ≡ false }
{}

/// A launch of an application, and an act of an application, leave every other place as it was.
pub fn other_applications_stay_as_they_are()
    ensures launch { (i j : ℕ) (s : State) → i ≢ j
        → slice_get (launched_at i s).places j ≡ slice_get s.places j }
    ensures act { (act : Act) (i j : ℕ) (s : State) → i ≢ j
        → slice_get (acted_at act i s).places j ≡ slice_get s.places j }
{}
