ghost use Rattle.std.specs.Prelude.{◌≡◌, ℕ, ◌<◌, ◌≤◌, None, Some, replicate, slice_set, slice_index_or};

use std::marker::Model;

/// How many bytes a class of sizes spans: a choice.
pub const CLASS_SIZE: usize = 25;

/// How many classes of sizes there are: a choice.
pub const CLASS_COUNT: usize = 80;

/// The payload of a packet that is kept is below so many bytes: those of all classes.
pub const CACHED_SIZE_LIMIT: usize = CLASS_COUNT * CLASS_SIZE;

/// For each class of sizes below 2,000 bytes a number, or none. Contracts see the list.
#[derive(Debug, Drop)]
pub struct SizeClasses {
    all: [Option<u64>; CLASS_COUNT],
    top: usize,
}

impl Model for SizeClasses {
    ghost use Rattle.std.specs.Prelude.{◌≡◌, ℕ, ◌≤◌, List, Option, None, length, slice_index_or};
    ghost use Rattle.resend_core.specs.declared.size_classes.TheConstants.{CLASS_COUNT};

    ghost Value = { List (Option ℕ) };

    ghost view = { λ s. s.all };

    ghost invariant = { λ s. (length s.all ≡ CLASS_COUNT) × ((k : ℕ) → s.top ≤ k → slice_index_or s.all k None ≡ None) };
}

impl SizeClasses {
    /// No number in any class.
    pub fn new() -> Self
        ensures { result ≡ replicate CLASS_COUNT None }
    {
        SizeClasses {
            all: [None; CLASS_COUNT],
            top: 0,
        }
    }

    /// A class from which on none has a number.
    pub fn top(&self) -> usize
        ensures { (k : ℕ) → result ≤ k → slice_index_or self.now k None ≡ None }
    {
        self.top
    }

    /// The number of a class.
    pub fn get(&self, class: usize) -> Option<u64>
        requires { class < CLASS_COUNT }
        ensures { result ≡ slice_index_or self.now class None }
    {
        self.all[class]
    }

    pub fn put(&mut self, class: usize, number: u64)
        requires { class < CLASS_COUNT }
        ensures { self.new ≡ slice_set self.old class (Some number) }
    {
        self.all[class] = Some(number);
        self.top = self.top.max(class + 1);
    }
}
