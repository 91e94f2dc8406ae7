// The goal that a file names.
ghost use Rattle.reader.specs.Targets.{file_target, named_target};
ghost use Rattle.reader.specs.Named.{named_bounded, file_bounded};
ghost use Rattle.std.proofs.Common.{rules};

use model::goal::Goal;
use model::goal::band::Band;
use model::goal::list::TotalList;
use model::goal::stride::Stride;

// A band or a list.
#[derive(Clone, Copy)]
pub enum Named {
    Band(Band),
    List(TotalList),
}

// The variants' names say which fields a file has, so this is no general type for one of two goals.
impl Goal for Named {
    ghost means = { named_target };

    ghost bounded = { λ g b e. named_bounded g b e };

    ghost low = { Prim.search rules };

    fn top(&self) -> u64 {
        match self {
            Named::Band(band) => band.top(),
            Named::List(list) => list.top(),
        }
    }

    fn admits(&self, total: u64) -> bool {
        match self {
            Named::Band(band) => band.admits(total),
            Named::List(list) => list.admits(total),
        }
    }
}

// The same, plain or with a stride over it.
#[derive(Drop)]
pub enum FileGoal {
    Plain(Named),
    Strided(Stride<Named>),
}

// Likewise: the names say whether the file has a stride.
impl Goal for FileGoal {
    ghost means = { file_target };

    ghost bounded = { λ g b e. file_bounded g b e };

    ghost low = { Prim.search rules };

    fn top(&self) -> u64 {
        match self {
            FileGoal::Plain(goal) => goal.top(),
            FileGoal::Strided(stride) => stride.top(),
        }
    }

    fn admits(&self, total: u64) -> bool {
        match self {
            FileGoal::Plain(goal) => goal.admits(total),
            FileGoal::Strided(stride) => stride.admits(total),
        }
    }
}
