//! The files that a run of `render` is read from.

ghost use Rattle.std.specs.Prelude.{◌≡◌};
ghost use Rattle.run_files.specs.Named.{IsNamed};
ghost use Rattle.looper_cli.specs.Named.{named_of};

use command_words::Render;
use run_files::Sources;
use sl_base::Name;

fn same_name(name: &Option<Name>) -> Option<Name>
    ensures { result ≡ name.now }
{
    match name {
        Some(name) => Some(name.duplicate()),
        None => None,
    }
}

/// The files that a run is read from.
pub fn sources_of(asked: &Render) -> Sources
    ensures value { result ≡ named_of asked.now }
    ensures within { IsNamed (named_of asked.now) }
{
    Sources {
        input: asked.input.duplicate(),
        session: same_name(&asked.session),
        loops: asked.loops,
        journal: asked.journal.duplicate(),
        chunks: asked.chunks,
    }
}
