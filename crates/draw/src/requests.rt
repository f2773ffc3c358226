//! What the words ask for.

ghost use Rattle.std.specs.Prelude.{◌≡◌, map, string_bytes};
ghost use Rattle.draw.specs.Requests.{request_of};

use run_pictures::Form;

/// What these words ask for: without words a picture, and by `--page`, alone, a page. None comes
/// exactly if they are any others.
pub fn request_of(words: &[String]) -> Option<Form>
    ensures { result ≡ request_of (map string_bytes words.now) }
{
    match words {
        [] => Some(Form::Picture),
        [word] if word.as_str() == "--page" => Some(Form::Page),
        _ => None,
    }
}
