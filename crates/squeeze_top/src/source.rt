//! Where the texts of a job come from.

ghost use Rattle.std.specs.Prelude.{◌≡◌};
ghost use Rattle.front_end.specs.Files as files;
ghost use Rattle.squeeze_top.specs.Jobs.{source};

use front_end::Source;
use word_line::{Job, Mode, Name};

/// Where the texts of a job come from, this being its file.
pub(crate) fn source_of<'a>(job: &'a Job, file: &'a Name) -> Source<'a>
    ensures { files.source_of result ≡ source job.now file.now }
{
    let table = match &job.costs {
        Some(name) => Some(name.as_str()),
        None => None,
    };
    let input = match job.mode {
        Mode::Run => Some(job.input.as_str()),
        _ => None,
    };
    Source {
        file: file.as_str(),
        entry: job.entry.as_str(),
        input,
        table,
    }
}
