// Runs of samples and channels for C.
ghost use Rattle.std.specs.Prelude.{◌≡◌};
ghost use Rattle.conversion.specs.Tray.{channels_of, samples_of};
ghost use Rattle.tray.specs.Answer.{told};
ghost use Rattle.khuyurek.specs.Trays.{tray_of, filled_of};

use fault::Refusal;

// Number 0 is converted; else the refusal with the position of the first element that is refused,
// and 0 for a lent run that is too short.
#[repr(C)]
#[derive(Drop)]
pub struct TrayAnswer {
    pub number: u32,
    pub position: usize,
}

fn exported(a: Result<(), Refusal>) -> TrayAnswer
    ensures { result ≡ tray_of (told a) }
{
    match a {
        Ok(()) => TrayAnswer {
            number: 0,
            position: 0,
        },
        Err(Refusal(fault, position)) => TrayAnswer {
            number: fault.number(),
            position,
        },
    }
}

// The channels of a run of samples of one space, by their bits.
#[unsafe(no_mangle)]
pub extern "C" fn khuyurek_to_channels(space: u16, samples: &[u16], bits: &mut [u32]) -> TrayAnswer
    ensures { (result, bits.new) ≡ filled_of (channels_of space samples.now bits.old) }
{
    exported(tray::to_channels(space, samples, bits))
}

// The samples of a run of channels, by their bits, of the model with a tag.
#[unsafe(no_mangle)]
pub extern "C" fn khuyurek_to_samples(model: u32, bits: &[u32], samples: &mut [u16]) -> TrayAnswer
    ensures { (result, samples.new) ≡ filled_of (samples_of model bits.now samples.old) }
{
    exported(tray::to_samples(model, bits, samples))
}
