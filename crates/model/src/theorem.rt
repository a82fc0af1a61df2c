ghost use Rattle.model.specs.Cases.{Cases};
ghost use Rattle.model.specs.Follows.{FollowsModel};
ghost use Rattle.model.specs.Stability.{StabilityHolds};
ghost use Rattle.model.specs.Types.{TypesHold};

use books::Book;
use logs::Log;

// A group is the published model, amended: each accepted call is the action of its name, and a call is refused
// exactly where that action is not enabled.
pub fn follows_model<B: Book, L: Log>()
    ensures { FollowsModel B.Book.meaning L.Log.limit }
{}

// The published Stability of what the group commits.
pub fn stability<B: Book, L: Log>()
    ensures { StabilityHolds B.Book.meaning L.Log.limit }
{}

// The published TypeOK, at every point.
pub fn type_ok<B: Book, L: Log>()
    ensures { TypesHold B.Book.meaning L.Log.limit }
{}

// A worked case, computed: a command that is accepted, recovered by a new leader and committed.
pub fn model_cases()
    ensures { Cases }
{}
