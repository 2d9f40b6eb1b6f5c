ghost use Rattle.std.specs.Prelude.{IfOk};
ghost use Rattle.packages.specs.Memory.{SameMemory};
ghost use Rattle.sheet.specs.Views.{rows_of};
ghost use Rattle.console.specs.Transcripts.{Transcript};

use crate::lines::Lines;
use crate::session::Session;
use crate::telling::{finish, take_line};
use packages::list::PackageList;
use packages::package::Package;
use std::alloc::{AllocError, Global};

// What is printed of a whole text, line by line.
pub fn transcribe<P: Package>(
    heap: Global,
    text: &[u8],
    list: &mut PackageList<P>,
) -> Result<Vec<u8>, AllocError>
    ensures transcript { IfOk result (λ v. Transcript P.Package.labeled text.now (rows_of P.Package list.old) v.items) }
    ensures memory { SameMemory list.old.places list.new.places }
{
    let mut all = Vec::new(heap);
    if text.len() > 65_536 {
        all.extend_from_slice(b"1 1 T 1\n")?;
        return Ok(all);
    }
    // a buffer, since the console's call writes into memory that is lent
    let mut out = [0; 256];
    let mut session = Session::Idle;
    for (at, line) in Lines(text).enumerate() {
        let (next, written) = take_line(session, list, at + 1, line, &mut out);
        session = next;
        let Ok(n) = written else { unreachable() };
        if let Err(error) = all.extend_from_slice(&out[..n]) {
            session.abandon();
            return Err(error);
        }
    }
    match finish(session, &mut out) {
        Ok(n) => {
            all.extend_from_slice(&out[..n])?;
            Ok(all)
        }
        Err((back, _)) => {
            back.abandon();
            unreachable()
        }
    }
}
