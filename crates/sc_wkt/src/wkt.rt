ghost use Rattle.sc_wkt.specs.Answer.{WktAnswers};

use crate::fault::WktFault;
use crate::levels::next_token;
use crate::read::read_geometry;
use crate::reading::{End, Reading};
use sc_geom::Geom;
use sc_grammar::readable_len;
use std::alloc::Global;

/// Reads one geometry at the front of the text, as CQL2 text writes it (OGC 21-065r2, Annex B), and gives how many bytes it
/// takes, up to its last parenthesis; what stands behind isn't read.
///
/// `Syntax` where no whole geometry stands there, at the first token that no geometry goes on with: a byte at which no token
/// can be formed, a byte that isn't UTF-8 and a parenthesis of the 65th level among them. `BadLiteral` for a number that is
/// too wide or a geometry with a line of fewer than 2 positions, an open ring, a coordinate out of range or more than `most`
/// positions, whichever of both has the lesser place; a bad geometry counts only where it is whole. `OutOfMemory` may come of
/// any text.
pub fn geom_of_wkt(alloc: Global, text: &[u8], most: u32) -> Result<(Geom, u64), WktFault>
    ensures { WktAnswers text.now most result }
{
    let len = readable_len(text);
    let is_whole = len == text.len();
    let readable = &text[..len];
    let Reading { drawing, wide, end } = read_geometry(alloc, readable, is_whole)?;
    match end {
        End::Refused(at) => match wide {
            None => Err(WktFault::Syntax { at: at as u64 }),
            Some(at) => Err(WktFault::BadLiteral { at }),
        },
        End::Whole(to) => {
            if drawing.is_bad(most) {
                let first = next_token(readable, is_whole, 0, 0);
                return Err(WktFault::BadLiteral {
                    at: first.from as u64,
                });
            }
            if let Some(at) = wide {
                return Err(WktFault::BadLiteral { at });
            }
            Ok((drawing.finish(most)?, to as u64))
        }
    }
}
