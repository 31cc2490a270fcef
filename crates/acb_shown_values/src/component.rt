// What the byte of a component shows.
ghost use Rattle.std.specs.Prelude.{◌≡◌, ◌+◌, ◌*◌, ◌/◌, pos};
ghost use Rattle.acb_shown_values.specs.Components.{percent, centred, shown_component};

// A byte as a percentage of 255, to the nearest, halves up.
fn percent(byte: u8) -> i16
    ensures { result ≡ pos (percent byte) }
{
    let b = byte as u16;
    ((200 * b + 255) / 510) as i16
}

// A byte minus 128.
fn centred(byte: u8) -> i16
    ensures { result ≡ centred byte }
{
    byte as i16 - 128
}

/// What the byte of a component shows, by its position in a record of a space: percent in CMYK and of
/// lightness, a and b of Lab about 0, and in every other space the byte itself.
pub fn shown_component(space: u16, position: usize, byte: u8) -> i16
    ensures { result ≡ shown_component space position byte }
{
    if space == colour::CMYK {
        return percent(255 - byte);
    }
    if space == colour::LAB {
        if position == 0 {
            return percent(byte);
        }
        return centred(byte);
    }
    byte as i16
}
