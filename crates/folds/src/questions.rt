// A fold is a system. Each question asks the system below for its sizes once.
ghost use Rattle.folds.specs.Folds.{fold_meaning};
ghost use Rattle.folds.specs.Kept.{fold_lawful};

use crate::fold::Fold;
use systems::{Kind, LampAt, Light, Move, Sizes, System};

impl<S: System> System for Fold<S> {
    ghost meaning = { λ f. fold_meaning (S.System.meaning f.system) f.classes.of f.count };

    ghost lawful = { λ f. fold_lawful (S.System.meaning f.system) f.classes.of f.count (S.System.lawful f.system) };

    fn sizes(&self) -> Sizes {
        match self.members() {
            Some(members) => Sizes {
                states: self.count,
                start: self.classes.class_of(members.below.sizes.start),
                ..members.below.sizes
            },
            None => Sizes {
                states: 0,
                actions: 0,
                lamps: 0,
                start: 0,
            },
        }
    }

    fn kind(&self, at: Move) -> Kind {
        self.members()
            .map_or(Kind::Absent, |members| members.kind_between(at))
    }

    fn light(&self, at: LampAt) -> Light {
        self.members()
            .map_or(Light::Unknown, |members| members.light_of(at))
    }
}
