// The promise, of a world that was played.
ghost use Rattle.fc_rounds.specs.Lines.{AreNumbered, HasOneWord, HasReported};
ghost use Rattle.fc_rounds.specs.Promise.{AtEachMoment, HadOnePlan, HasAgreed, HasFolded, HasSettled, HasSettledOnce, HasTold, IsFenced, WasReady};

use fc_world::World;

/// What is promised of a world, now and at every moment since its first step, whatever its script says: however messages were lost, repeated or
/// reordered, and whichever control elements and elements stopped and returned. No two elements have settled one transaction differently, and
/// none has settled one twice. Before an element completed a transaction every participant had prepared it, and all had opened it with the same
/// participants. What is settled at each element is the fold of what it has completed, and of nothing else, on what it opened with. A
/// Config of a life that an element has replaced changes nothing there. What a control element counts as settled was settled so at
/// every participant. And each element's records tell exactly what was settled there and is not below its floor, and so
/// does the report, in which no line says otherwise of a transaction than another.
pub fn headline(world: &World)
    ensures agree { AtEachMoment HasAgreed world.now }
    ensures once { AtEachMoment HasSettledOnce world.now }
    ensures ready { AtEachMoment WasReady world.now }
    ensures one_plan { AtEachMoment HadOnePlan world.now }
    ensures folded { AtEachMoment HasFolded world.now }
    ensures fenced { AtEachMoment IsFenced world.now }
    ensures settled { AtEachMoment HasSettled world.now }
    ensures told { AtEachMoment HasTold world.now }
    ensures reported { AtEachMoment HasReported world.now }
    ensures one_word { AreNumbered world.now.setting → AtEachMoment HasOneWord world.now }
{
    world.keeps();
}
