// The bench: the memory of one search.
ghost use Rattle.std.specs.Prelude.{◌≡◌, IfOk, vec_len, slice_index_or, slice_set};
ghost use Rattle.course.specs.declared.machine.Mark.TheVariants.{Unseen};
ghost use Rattle.planner.specs.Idle.{Idle};

use course::Mark;
use std::alloc::{AllocError, Global};

// As many states as a blank may have.
pub(crate) const STATES: usize = 1024;

// A mark for each state, and the states of the standing route: two rows of a fixed size, since no call of a last takes memory. It is made once, and serves
// one last after the other.
#[derive(Drop)]
pub struct Bench {
    marks: Vec<Mark>,
    path: Vec<u32>,
    ghost marks_full: { vec_len marks ≡ 1024 },
    ghost path_full: { vec_len path ≡ 1024 },
}

impl Bench {
    // An idle bench. Only memory can fail.
    pub fn new(alloc: Global) -> Result<Bench, AllocError>
        ensures { IfOk result (λ b. Idle b.marks.items b.path.items) }
    {
        let marks = vec![in alloc; Mark::Unseen; STATES]?;
        let path = vec![in alloc; 0u32; STATES]?;
        Ok(Bench { marks, path })
    }

    // The mark of a state: past the bench every state is unseen.
    pub(crate) fn mark(&self, state: u32) -> Mark
        ensures { result ≡ slice_index_or self.now.marks.items state Unseen }
    {
        self.marks
            .get(state as usize)
            .copied()
            .unwrap_or(Mark::Unseen)
    }

    // Marks a state, where the bench has it. (set_step does the same to the path: one function over either row would add more lines than it saves.)
    pub(crate) fn set_mark(&mut self, state: u32, mark: Mark)
        ensures marks { self.new.marks.items ≡ slice_set self.old.marks.items state mark }
        ensures path { self.new.path ≡ self.old.path }
    {
        if let Some(place) = self.marks.get_mut(state as usize) {
            *place = mark;
        }
    }

    // The path, all 1,024 states of it.
    pub(crate) fn path(&self) -> &[u32]
        ensures { result.now ≡ self.now.path.items }
    {
        &self.path
    }

    // Writes a state of the path, where the bench has it.
    pub(crate) fn set_step(&mut self, i: u32, state: u32)
        ensures path { self.new.path.items ≡ slice_set self.old.path.items i state }
        ensures marks { self.new.marks ≡ self.old.marks }
    {
        if let Some(place) = self.path.get_mut(i as usize) {
            *place = state;
        }
    }

    // Makes it idle, whatever it holds.
    pub(crate) fn clean(&mut self)
        ensures { Idle self.new.marks.items self.new.path.items }
    {
        self.marks.fill(Mark::Unseen);
        self.path.fill(0);
    }
}
