// Where a reader stands after it reads on.
ghost use Rattle.std.specs.Prelude.{◌≡◌, ◌<◌};
ghost use Rattle.definition.specs.State.{advance};
ghost use Rattle.reader.specs.Cursors.{moved, next_line};

use crate::Cursor;
use position::Cache;

// The text was read up to byte e, on the same line.
pub fn moved(at: Cursor, e: usize) -> Cursor
    requires { e < 4294967296 }
    ensures { result ≡ moved at e }
{
    let st = at.st;
    let known = at.known;
    Cursor {
        st: st.advance(e as u32),
        known,
    }
}

// The text was read up to byte e, where a line begins.
pub fn next_line(at: Cursor, e: usize) -> Cursor
    requires { (e < 4294967296) × (at.st.line < 4294967295) }
    ensures { result ≡ next_line at e }
{
    let st = at.st;
    let read = st.advance(e as u32);
    let known = Cache {
        off: e as u32,
        col: 0,
    };
    Cursor {
        st: read.new_line(),
        known,
    }
}
