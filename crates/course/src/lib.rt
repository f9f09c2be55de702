// What every layer of the planner shares: the refusals with their numbers, and focal search as rules. The rules say what a blank means,
// what the machine does in one move, what each call answers, and what lists of calls make; the planner's code meets them in crates of its
// own. A function below that takes nothing stands for a theorem: its contract is the statement, and nothing is computed. It stands on std
// alone.
#![tactic(auto)]

ghost use Rattle.course.specs.Promises.{LivesSound, WordsMeant, AnswersTrue, LivesAgree, CallsAnswered, ClampingBegins};
ghost use Rattle.course.specs.Worked.{WorkedOut};

mod machine;
mod refusal;

pub use machine::{Mark, Numbers, Reach, Word};
pub use refusal::Refusal;

// After every list of calls the floor is under every route, a standing route is a route at its cost, and the moves are few and are those told.
pub fn lives_are_sound()
    ensures { LivesSound }
{}

// What done, met and spent mean, and how they keep to the budget.
pub fn words_are_meant()
    ensures { WordsMeant }
{}

// Every answer of every life means what it says: what show and route tell is so, and the words of work are meant.
pub fn answers_are_true()
    ensures { AnswersTrue }
{}

// Two lives with the same settings at the same moves, and as many moves, answer show and route alike.
pub fn lives_agree()
    ensures { LivesAgree }
{}

// After every list of calls, every call whatever has an answer and a state that it leaves, and only one.
pub fn calls_are_answered()
    ensures { CallsAnswered }
{}

// Every lawful blank can be clamped with every wish, and clamping leaves one state.
pub fn clamping_begins()
    ensures { ClampingBegins }
{}

// The worked blank P of docs/SEARCH.md is lawful, and a last over it answers the eight calls as that page says.
pub fn p_answers_as_worked()
    ensures { WorkedOut }
{}
