//! The commands on images.

ghost use Rattle.std.specs.Prelude.{◌∷◌, map, string_bytes, IfSome, IfNone};
ghost use Rattle.std.specs.Fmt.{decimal};
ghost use Rattle.aces_words.specs.Requests.{Asks};
ghost use Rattle.aces_words.specs.Commands.{image_request, AsksOfNoImage};

use crate::numbers::{address, number};

/// A command on an image, with what its words name.
#[derive(Clone, Copy)]
pub enum ImageCommand<'a> {
    /// Runs an image on a tape for at most so many machine steps.
    Run {
        image: &'a str,
        tape: &'a str,
        steps: u32,
    },
    /// Writes the flash bytes of an image to a file.
    Bin {
        image: &'a str,
        file: &'a str,
    },
    /// Runs an image on a tape for at most so many machine steps, up to the first access of an address, which is kept as it is written.
    Watch {
        image: &'a str,
        tape: &'a str,
        steps: u32,
        address: &'a str,
    },
    /// Tells what the machine holds after at most so many steps of an image on a tape.
    State {
        image: &'a str,
        tape: &'a str,
        steps: u32,
    },
    /// Checks an image from anyone.
    Audit {
        image: &'a str,
    },
    /// Tells what the tables of an image say, where it passes that check.
    Tables {
        image: &'a str,
    },
}

/// The command that takes an image that these words ask for, if they ask for one.
pub(crate) fn image_command(words: &[String]) -> Option<ImageCommand<'_>>
    ensures command { IfSome result (λ c. Asks (map string_bytes words.now) (image_request c)) }
    ensures none { IfNone result (AsksOfNoImage (map string_bytes words.now)) }
{
    let [name, image, rest @ ..] = words else {
        return None;
    };
    let (name, image) = (name.as_str(), image.as_str());
    match (name, rest) {
        ("audit", []) => Some(ImageCommand::Audit { image }),
        ("tables", []) => Some(ImageCommand::Tables { image }),
        ("bin", [file]) => Some(ImageCommand::Bin {
            image,
            file: file.as_str(),
        }),
        (_, [tape, steps, rest @ ..]) => {
            let steps = number(steps.as_str())?;
            tape_command(name, image, tape.as_str(), steps, rest)
        }
        _ => None,
    }
}

/// The command of this name that runs an image on a tape for at most so many machine steps, with the words behind their number.
fn tape_command<'a>(
    name: &str,
    image: &'a str,
    tape: &'a str,
    steps: u32,
    rest: &'a [String],
) -> Option<ImageCommand<'a>>
    ensures command { IfSome result (λ c. Asks (name.now ∷ image.now ∷ tape.now ∷ decimal steps ∷ map string_bytes rest.now) (image_request c)) }
    ensures none { IfNone result (AsksOfNoImage (name.now ∷ image.now ∷ tape.now ∷ decimal steps ∷ map string_bytes rest.now)) }
{
    match (name, rest) {
        ("run", []) => Some(ImageCommand::Run { image, tape, steps }),
        ("state", []) => Some(ImageCommand::State { image, tape, steps }),
        ("watch", [word]) => {
            let word = word.as_str();
            address(word)?;
            Some(ImageCommand::Watch {
                image,
                tape,
                steps,
                address: word,
            })
        }
        _ => None,
    }
}
