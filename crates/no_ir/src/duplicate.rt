ghost use Rattle.std.specs.Prelude.{◌≡◌, IfOk};

use crate::NoMemory;
use sqlite_items::Items as List;
use std::alloc::Global;

/// A value of which a second, equal one can be made.
pub(crate) trait Duplicate: Drop + Sized {
    fn duplicate(&self, alloc: Global) -> Result<Self, NoMemory>
        ensures { IfOk result (λ t. t ≡ self.now) };
}

impl Duplicate for u8 {
    fn duplicate(&self, _alloc: Global) -> Result<u8, NoMemory> {
        Ok(*self)
    }
}

impl Duplicate for u32 {
    fn duplicate(&self, _alloc: Global) -> Result<u32, NoMemory> {
        Ok(*self)
    }
}

impl Duplicate for u64 {
    fn duplicate(&self, _alloc: Global) -> Result<u64, NoMemory> {
        Ok(*self)
    }
}

impl Duplicate for i64 {
    fn duplicate(&self, _alloc: Global) -> Result<i64, NoMemory> {
        Ok(*self)
    }
}

impl<T: Duplicate> Duplicate for Option<T> {
    fn duplicate(&self, alloc: Global) -> Result<Option<T>, NoMemory> {
        match self {
            None => Ok(None),
            Some(value) => Ok(Some(value.duplicate(alloc)?)),
        }
    }
}

impl<A: Duplicate, B: Duplicate> Duplicate for (A, B) {
    fn duplicate(&self, alloc: Global) -> Result<(A, B), NoMemory> {
        let first = self.0.duplicate(alloc)?;
        let second = self.1.duplicate(alloc)?;
        Ok((first, second))
    }
}

impl<T: Duplicate> Duplicate for List<T> {
    fn duplicate(&self, alloc: Global) -> Result<List<T>, NoMemory> {
        let mut all = List::new(alloc);
        for item in self.as_slice() {
            all.push(item.duplicate(alloc)?)?;
        }
        Ok(all)
    }
}
