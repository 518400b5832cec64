// What is noted of the expressions of a grammar below its rules.
ghost use Rattle.std.specs.Prelude.{◌≡◌, ◌<◌, vec_len};

use crate::grammar::EXPRESSIONS;
use std::alloc::{AllocError, Global};

// At most so many rules.
pub const RULES: usize = 32;

// At most one note of each expression below each rule.
#[derive(Drop)]
pub struct Memo<T> {
    entries: Vec<Option<T>>,
    ghost whole: { vec_len entries ≡ 16896 },
}

impl<T: Copy> Memo<T> {
    ghost use Rattle.std.specs.Prelude.{◌+◌, ◌*◌, None, Some, IfOk, replicate, slice_index_or, slice_set};
    ghost use Rattle.states.specs.Memo.{notes};

    // Nothing is noted.
    pub fn new(heap: Global) -> Result<Memo<T>, AllocError>
        ensures { IfOk result (λ m. notes m ≡ replicate 16896 None) }
    {
        let entries = vec![in heap; None; (RULES + 1) * EXPRESSIONS]?;
        Ok(Memo { entries })
    }

    // What is noted of the node below the rule.
    pub fn get(&self, rule: usize, node: usize) -> Option<T>
        requires { node < 512 }
        ensures { result ≡ slice_index_or (notes self.now) (rule * 512 + node) None }
    {
        if rule > RULES {
            return None;
        }
        self.entries[rule * EXPRESSIONS + node]
    }

    // Notes a value of the node below the rule, if there is such a rule.
    pub fn set(&mut self, rule: usize, node: usize, value: T)
        requires { node < 512 }
        ensures { notes self.new ≡ slice_set (notes self.old) (rule * 512 + node) (Some value) }
    {
        if rule <= RULES {
            self.entries[rule * EXPRESSIONS + node] = Some(value);
        }
    }
}
