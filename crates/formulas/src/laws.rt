// What holds of texts and formulas as such.
ghost use Rattle.formulas.specs.Readings.{OneReading};

// A text is the text of one formula at most.
#[tactic(auto, using(crate::proofs::Spelled::one_reading))]
pub fn texts_have_one_reading()
    ensures { OneReading }
{}
