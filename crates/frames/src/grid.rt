// The table inside a frame: a row for each state, with the sets of states that its moves enter on
// each action, and for each lamp the sets of states where it is on and where it is off.
ghost use Rattle.std.specs.Prelude.{◌≡◌, ℕ, ◌<◌, false, ◌&&◌, if◌then◌else◌, ◌==◌, nat_eq};
ghost use Rattle.sets.specs.Sets.{has, width};
ghost use Rattle.systems.specs.Words.{possible, certain, is_on, is_off};

use sets::{Set, WIDTH};
use systems::{Kind, LampAt, Light, Move};

// The states that possible moves enter, and those that certain moves enter.
#[derive(Clone, Copy)]
pub struct Targets {
    pub may: Set,
    pub must: Set,
}

// The moves of one state.
#[derive(Clone, Copy)]
pub struct Row {
    pub by_action: [Targets; 8],
}

// The states where a lamp is on, and those where it is off.
#[derive(Clone, Copy)]
pub struct Lights {
    pub on: Set,
    pub off: Set,
}

#[derive(Clone, Copy)]
pub struct Grid {
    pub rows: [Row; WIDTH],
    pub lamps: [Lights; 8],
}

impl Targets {
    ghost use Rattle.frames.specs.Grids.{kind_of};

    pub(crate) fn none() -> Targets
        ensures may { (t : ℕ) → has result.may t ≡ false }
        ensures must { (t : ℕ) → has result.must t ≡ false }
    {
        Targets {
            may: sets::empty(),
            must: sets::empty(),
        }
    }

    // The kind of the move to a state.
    pub(crate) fn kind(self, to: usize) -> Kind
        ensures { result ≡ kind_of (has self.must to) (has self.may to) }
    {
        if sets::contains(self.must, to) {
            Kind::Certain
        } else if sets::contains(self.may, to) {
            Kind::Optional
        } else {
            Kind::Absent
        }
    }

    pub(crate) fn set(&mut self, to: usize, kind: Kind)
        requires { to < width }
        ensures may { (t : ℕ) → has self.new.may t ≡ (if nat_eq t to then possible kind else has self.old.may t) }
        ensures must { (t : ℕ) → has self.new.must t ≡ (if nat_eq t to then certain kind else has self.old.must t) }
    {
        self.may = put(self.may, to, kind.is_possible());
        self.must = put(self.must, to, kind.is_certain());
    }
}

impl Row {
    ghost use Rattle.frames.specs.Grids.{row_may, row_must};

    pub(crate) fn blank() -> Row
        ensures no_may { (a t : ℕ) → row_may result a t ≡ false }
        ensures no_must { (a t : ℕ) → row_must result a t ≡ false }
    {
        Row {
            by_action: [Targets::none(); 8],
        }
    }

    pub(crate) fn set_move(&mut self, action: usize, to: usize, kind: Kind)
        requires action { action < 8 }
        requires to { to < width }
        ensures may { (a t : ℕ) → row_may self.new a t ≡ (if nat_eq a action && t == to then possible kind else row_may self.old a t) }
        ensures must { (a t : ℕ) → row_must self.new a t ≡ (if nat_eq a action && t == to then certain kind else row_must self.old a t) }
    {
        self.by_action[action].set(to, kind);
    }
}

impl Lights {
    ghost use Rattle.frames.specs.Grids.{light_of};

    pub(crate) fn none() -> Lights
        ensures on { (s : ℕ) → has result.on s ≡ false }
        ensures off { (s : ℕ) → has result.off s ≡ false }
    {
        Lights {
            on: sets::empty(),
            off: sets::empty(),
        }
    }

    // What the lamp shows in a state.
    pub(crate) fn light(self, state: usize) -> Light
        ensures { result ≡ light_of (has self.on state) (has self.off state) }
    {
        if sets::contains(self.on, state) {
            Light::On
        } else if sets::contains(self.off, state) {
            Light::Off
        } else {
            Light::Unknown
        }
    }

    pub(crate) fn set(&mut self, state: usize, light: Light)
        requires { state < width }
        ensures on { (s : ℕ) → has self.new.on s ≡ (if nat_eq s state then is_on light else has self.old.on s) }
        ensures off { (s : ℕ) → has self.new.off s ≡ (if nat_eq s state then is_off light else has self.old.off s) }
    {
        self.on = put(self.on, state, light.is_on());
        self.off = put(self.off, state, light.is_off());
    }
}

impl Grid {
    ghost use Rattle.frames.specs.Grids.{may_at, must_at, on_at, off_at};

    pub(crate) fn blank() -> Grid
        ensures no_may { (s a t : ℕ) → may_at result s a t ≡ false }
        ensures no_must { (s a t : ℕ) → must_at result s a t ≡ false }
        ensures no_on { (s l : ℕ) → on_at result s l ≡ false }
        ensures no_off { (s l : ℕ) → off_at result s l ≡ false }
    {
        Grid {
            rows: [Row::blank(); WIDTH],
            lamps: [Lights::none(); 8],
        }
    }

    // The states that moves from a state on an action enter: beyond the table, none.
    pub(crate) fn targets(&self, state: usize, action: usize) -> Targets
        ensures may { (t : ℕ) → has result.may t ≡ may_at self.now state action t }
        ensures must { (t : ℕ) → has result.must t ≡ must_at self.now state action t }
    {
        self.rows
            .get(state)
            .and_then(|row| row.by_action.get(action))
            .copied()
            .unwrap_or_else(Targets::none)
    }

    // The states where a lamp is on or off: beyond the table, none.
    pub(crate) fn lights(&self, lamp: usize) -> Lights
        ensures on { (s : ℕ) → has result.on s ≡ on_at self.now s lamp }
        ensures off { (s : ℕ) → has result.off s ≡ off_at self.now s lamp }
    {
        self.lamps.get(lamp).copied().unwrap_or_else(Lights::none)
    }

    pub(crate) fn set_move(&mut self, at: Move, kind: Kind)
        requires from { at.from < width }
        requires action { at.action < 8 }
        requires to { at.to < width }
        ensures may { (s a t : ℕ) → may_at self.new s a t ≡ (if nat_eq s at.from && a == at.action && t == at.to then possible kind else may_at self.old s a t) }
        ensures must { (s a t : ℕ) → must_at self.new s a t ≡ (if nat_eq s at.from && a == at.action && t == at.to then certain kind else must_at self.old s a t) }
        ensures lamps { self.new.lamps ≡ self.old.lamps }
    {
        self.rows[at.from].set_move(at.action, at.to, kind);
    }

    pub(crate) fn set_light(&mut self, at: LampAt, light: Light)
        requires state { at.state < width }
        requires lamp { at.lamp < 8 }
        ensures on { (s l : ℕ) → on_at self.new s l ≡ (if nat_eq s at.state && l == at.lamp then is_on light else on_at self.old s l) }
        ensures off { (s l : ℕ) → off_at self.new s l ≡ (if nat_eq s at.state && l == at.lamp then is_off light else off_at self.old s l) }
        ensures rows { self.new.rows ≡ self.old.rows }
    {
        self.lamps[at.lamp].set(at.state, light);
    }
}

// The set with `j` in it or not, as `member` says.
fn put(set: Set, j: usize, member: bool) -> Set
    requires { j < width }
    ensures { (i : ℕ) → has result i ≡ (if nat_eq i j then member else has set i) }
{
    if member {
        sets::with(set, j)
    } else {
        sets::without(set, j)
    }
}
