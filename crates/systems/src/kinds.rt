// The words in which a system is described.
ghost use Rattle.std.specs.Prelude.{◌≡◌};
ghost use Rattle.systems.specs.Words.{possible, optional, certain, known, is_on, is_off, drawn, shown};

// A move from one state to another on an action. An optional move may be there in a refinement, a
// certain one must be. Optional and certain moves are the possible ones.
#[derive(Clone, Copy, PartialEq, Eq, Debug)]
pub enum Kind {
    Absent,
    Optional,
    Certain,
}

impl Kind {
    pub fn is_possible(self) -> bool
        ensures { result ≡ possible self }
    {
        matches!(self, Kind::Optional | Kind::Certain)
    }

    pub fn is_optional(self) -> bool
        ensures { result ≡ optional self }
    {
        matches!(self, Kind::Optional)
    }

    pub fn is_certain(self) -> bool
        ensures { result ≡ certain self }
    {
        matches!(self, Kind::Certain)
    }
}

// The two kinds that a move can be drawn with.
#[derive(Clone, Copy, PartialEq, Eq, Debug)]
pub enum Modality {
    May,
    Must,
}

// The kind of a move that is drawn so.
impl From<Modality> for Kind {
    ghost from_gives = { λ m k. k ≡ drawn m };

    fn from(modality: Modality) -> Kind {
        match modality {
            Modality::May => Kind::Optional,
            Modality::Must => Kind::Certain,
        }
    }
}

// What a lamp shows in a state.
#[derive(Clone, Copy, PartialEq, Eq, Debug)]
pub enum Light {
    Unknown,
    On,
    Off,
}

impl Light {
    pub fn is_on(self) -> bool
        ensures { result ≡ is_on self }
    {
        matches!(self, Light::On)
    }

    pub fn is_off(self) -> bool
        ensures { result ≡ is_off self }
    {
        matches!(self, Light::Off)
    }

    pub fn is_known(self) -> bool
        ensures { result ≡ known self }
    {
        matches!(self, Light::On | Light::Off)
    }
}

// What an unknown lamp can be turned to.
#[derive(Clone, Copy, PartialEq, Eq, Debug)]
pub enum Setting {
    On,
    Off,
}

// What a lamp shows that is turned so.
impl From<Setting> for Light {
    ghost from_gives = { λ s v. v ≡ shown s };

    fn from(setting: Setting) -> Light {
        match setting {
            Setting::On => Light::On,
            Setting::Off => Light::Off,
        }
    }
}
