// A system with its states put together into classes.
ghost use Rattle.std.specs.Prelude.{◌≡◌, is_some, IfSome};
ghost use Rattle.folds.specs.Folds.{is_map};
ghost use Rattle.folds.specs.Maps.{are_classes};

use crate::classes::Classes;
use crate::members::Members;
use systems::{Measured, System};

// The fold has no states where `count` is not from 1 to 64, where some class is not below it, or
// where the system has none.
#[derive(Drop)]
pub struct Fold<S> {
    pub(crate) system: S,
    pub(crate) classes: Classes,
    pub(crate) count: usize,
    // Whether the classes and their count fit together, tested once.
    pub(crate) fits: bool,
    ghost tested: { fits ≡ are_classes classes.of count },
}

impl<S> Fold<S> {
    // It takes any classes and any count.
    pub fn new(system: S, classes: Classes, count: usize) -> Fold<S>
        ensures system { result.system ≡ system }
        ensures classes { result.classes ≡ classes }
        ensures count { result.count ≡ count }
    {
        let fits = classes.are_below(count);
        Fold {
            system,
            classes,
            count,
            fits,
        }
    }
}

impl<S: System> Fold<S> {
    // The members of the classes, where these are a map of the system.
    pub(crate) fn members(&self) -> Option<Members<'_, S>>
        ensures map { is_some result ≡ is_map (S.System.meaning self.now.system) self.now.classes.of self.now.count }
        ensures system { IfSome result (λ members. members.below.system.now ≡ self.now.system) }
        ensures classes { IfSome result (λ members. members.classes.now ≡ self.now.classes) }
    {
        let below = Measured::of(&self.system);
        if self.fits && 1 <= below.sizes.states {
            Some(Members {
                below,
                classes: &self.classes,
            })
        } else {
            None
        }
    }
}
