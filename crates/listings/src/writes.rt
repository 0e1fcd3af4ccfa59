// The lines of a listing, written one after another. Each function writes its text, where there is
// room for it, and goes on to the place after it.
ghost use Rattle.std.specs.Prelude.{◌≡◌, ◌<◌, ℕ, List, [], ◌∷◌, ◌++◌};
ghost use Rattle.listings.specs.Forms.{modality_word, setting_word, sizes_text, move_text, light_text};
ghost use Rattle.listings.specs.Texts.{over, heading, move_line, light_line};
ghost use Rattle.listings.specs.Writings.{Writes};
ghost use Rattle.text.specs.Numbers.{decimal};

use systems::{Entry, Kind, LampAt, Light, LightEntry, Modality, Move, MoveEntry, Setting, Sizes};
use text::Writer;

// What is written for each number below `n`, one after another.
pub(crate) fn each<F: Fn(&mut Writer<'_>, usize)>(writer: &mut Writer<'_>, n: usize, write: F)
    requires { (w : _) (i : ℕ) → i < n → F.pre write w i }
    ensures { (f : ℕ → List ℕ) → ((i : ℕ) (w w' : _) → i < n → F.post write w i tt w' → Writes w.now (f i) w'.now) → Writes writer.old (over n f) writer.new }
{
    for i in 0..n {
        write(writer, i);
    }
}

// A whole line, with the line feed that ends it.
pub(crate) fn put_line(writer: &mut Writer<'_>, line: &[u8])
    ensures { Writes writer.old (heading line.now) writer.new }
{
    writer.write_bytes(line);
    writer.write_bytes(b"\n");
}

// A number, and the byte that ends its field.
fn put_field(writer: &mut Writer<'_>, number: usize, end: u8)
    ensures { Writes writer.old (decimal number ++ (end ∷ [])) writer.new }
{
    writer.write_number(number);
    writer.write_bytes(&[end]);
}

// A number, a blank, a letter and a blank.
fn put_letter(writer: &mut Writer<'_>, number: usize, letter: u8)
    ensures { Writes writer.old (decimal number ++ (32 ∷ letter ∷ 32 ∷ [])) writer.new }
{
    writer.write_number(number);
    writer.write_bytes(&[b' ', letter, b' ']);
}

pub(crate) fn put_sizes(writer: &mut Writer<'_>, sizes: Sizes)
    ensures { Writes writer.old (heading (sizes_text sizes)) writer.new }
{
    put_field(writer, sizes.states, b' ');
    put_field(writer, sizes.actions, b' ');
    put_field(writer, sizes.lamps, b' ');
    put_field(writer, sizes.start, b'\n');
}

fn modality_word(modality: Modality) -> &'static [u8]
    ensures { result.now ≡ modality_word modality }
{
    match modality {
        Modality::May => b"optional",
        Modality::Must => b"certain",
    }
}

fn setting_word(setting: Setting) -> &'static [u8]
    ensures { result.now ≡ setting_word setting }
{
    match setting {
        Setting::On => b"on",
        Setting::Off => b"off",
    }
}

fn put_move_entry(writer: &mut Writer<'_>, entry: MoveEntry)
    requires { entry.at.action < 8 }
    ensures { Writes writer.old (heading (move_text entry)) writer.new }
{
    put_letter(writer, entry.at.from, b'a' + entry.at.action as u8);
    put_field(writer, entry.at.to, b' ');
    put_line(writer, modality_word(entry.value));
}

fn put_light_entry(writer: &mut Writer<'_>, entry: LightEntry)
    requires { entry.at.lamp < 8 }
    ensures { Writes writer.old (heading (light_text entry)) writer.new }
{
    put_letter(writer, entry.at.state, b'p' + entry.at.lamp as u8);
    put_line(writer, setting_word(entry.value));
}

// The line of a move, or nothing where it is absent.
pub(crate) fn put_move(writer: &mut Writer<'_>, at: Move, kind: Kind)
    requires { at.action < 8 }
    ensures { Writes writer.old (move_line kind at.from at.action at.to) writer.new }
{
    match kind {
        Kind::Absent => {}
        Kind::Optional => put_move_entry(
            writer,
            Entry {
                at,
                value: Modality::May,
            },
        ),
        Kind::Certain => put_move_entry(
            writer,
            Entry {
                at,
                value: Modality::Must,
            },
        ),
    }
}

// The line of a light, or nothing where it is unknown.
pub(crate) fn put_light(writer: &mut Writer<'_>, at: LampAt, light: Light)
    requires { at.lamp < 8 }
    ensures { Writes writer.old (light_line light at.state at.lamp) writer.new }
{
    match light {
        Light::Unknown => {}
        Light::On => put_light_entry(
            writer,
            Entry {
                at,
                value: Setting::On,
            },
        ),
        Light::Off => put_light_entry(
            writer,
            Entry {
                at,
                value: Setting::Off,
            },
        ),
    }
}
