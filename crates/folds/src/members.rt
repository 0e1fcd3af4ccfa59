// Questions to the members of a class: each move, and each lamp, is asked for once.
ghost use Rattle.std.specs.Prelude.{◌≡◌};
ghost use Rattle.systems.specs.Words.{possible, certain};
ghost use Rattle.folds.specs.Folds.{enters, fold_kind, fold_light};

use crate::classes::Classes;
use systems::{Kind, LampAt, Light, Measured, Move, System};

// A system with the classes that its states are put into.
#[derive(Drop)]
pub(crate) struct Members<'a, S: System> {
    pub(crate) below: Measured<'a, S>,
    pub(crate) classes: &'a Classes,
}

// Whether some possible move, and whether some certain one, enters a class.
#[derive(Clone, Copy)]
struct Entries {
    may: bool,
    must: bool,
}

impl<'a, S: System> Members<'a, S> {
    // What moves of the state `at.from` on the action enter the class `at.to`, in one pass over the
    // states.
    #[tactic(auto, using(systems::proofs::Bounded::any_next))]
    fn entering(&self, at: Move) -> Entries
        ensures may { result.may ≡ enters possible (S.meaning self.now.below.system.now) self.now.classes.now.of at.from at.action at.to }
        ensures must { result.must ≡ enters certain (S.meaning self.now.below.system.now) self.now.classes.now.of at.from at.action at.to }
    {
        let mut may = false;
        let mut must = false;
        for to in 0..self.below.sizes.states {
            if self.classes.class_of(to) == at.to {
                let kind = self.below.system.kind(Move { to, ..at });
                may |= kind.is_possible();
                must |= kind.is_certain();
            }
        }
        Entries { may, must }
    }

    // The move between two classes: possible where some member has one, certain where every member
    // has a certain one.
    #[tactic(auto, using(systems::proofs::Bounded::any_next, systems::proofs::Bounded::all_next))]
    pub(crate) fn kind_between(&self, at: Move) -> Kind
        ensures { result ≡ fold_kind (S.meaning self.now.below.system.now) self.now.classes.now.of at.from at.action at.to }
    {
        let mut some = false;
        let mut every = true;
        for state in 0..self.below.sizes.states {
            if self.classes.class_of(state) == at.from {
                let found = self.entering(Move { from: state, ..at });
                some |= found.may;
                every &= found.must;
            }
        }
        if !some {
            Kind::Absent
        } else if every {
            Kind::Certain
        } else {
            Kind::Optional
        }
    }

    // What all members of the class `at.state` show alike, where there are members.
    #[tactic(auto, using(systems::proofs::Bounded::any_next, systems::proofs::Bounded::all_next))]
    pub(crate) fn light_of(&self, at: LampAt) -> Light
        ensures { result ≡ fold_light (S.meaning self.now.below.system.now) self.now.classes.now.of at.state at.lamp }
    {
        let mut members = false;
        let mut on = true;
        let mut off = true;
        for state in 0..self.below.sizes.states {
            if self.classes.class_of(state) == at.state {
                let light = self.below.system.light(LampAt { state, ..at });
                members = true;
                on &= light.is_on();
                off &= light.is_off();
            }
        }
        if !members {
            Light::Unknown
        } else if on {
            Light::On
        } else if off {
            Light::Off
        } else {
            Light::Unknown
        }
    }
}
