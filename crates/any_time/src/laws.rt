//! Laws of sessions and of batches, each the contract of a function that does nothing.

ghost use Rattle.any_time.specs.Batches.{BatchItemsFall, EndsWithSessions, FailsByMemory, ItemsAreOfSessions};
ghost use Rattle.any_time.specs.Items.{ItemsFall, GivesTextbookItems};

/// However often a session is polled: costs of the items strictly fall and their marks strictly rise, and each is the best path of the
/// settled run after so many marks. Each is a path of the run at any later time too, though parents may have changed since, and the
/// first came at the first slice that gave a goal node. At the end, unless memory was out, the run is settled and over all marks, and
/// the last item has the cost of its best path. By one worker the runs are the textbook's.
pub fn items_fall()
    ensures { ItemsFall }
{}

/// A session by one worker that is polled until its end, and has its run, has given the items of the textbook's runs after each whole number of
/// slices and after all marks, and no others: the best path of each such run that is cheaper than those of all before it.
pub fn one_worker_gives_textbook_items()
    ensures { GivesTextbookItems }
{}

/// However often a batch is polled: the items of each number, in their order, are those of the session with this number, so that the law
/// of sessions holds for them. At the end every session is at its end, unless an item `Memory` was given, which is exactly if the batch
/// has failed.
pub fn items_are_of_sessions()
    ensures sessions { ItemsAreOfSessions }
    ensures fall { BatchItemsFall }
    ensures failed { FailsByMemory }
    ensures end { EndsWithSessions }
{}
