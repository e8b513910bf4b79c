//! From a certificate to text.
ghost use Rattle.std.specs.Prelude.{◌≡◌, ◌<◌, ◌^◌, ◌++◌, map, decimal, IfOk, OnOk};
ghost use Rattle.std.specs.List.{AllByRecursion};
ghost use Rattle.serde_json.specs.View.{items_of};
ghost use Rattle.serde_json.specs.Written.{items_text, compact_text, comma_if};
ghost use Rattle.cert_maker.specs.Added.{traced};
ghost use Rattle.cert_codec.specs.Text.{whole, numbers, array_of, added_json, never_json, entry, PageFits, TracedFits, Fits};

use cert_maker::{Added, AddedList, Cert};
use sdbt_base::{Addrs, Line, Memory, Unkept, UnkeptList};
use std::alloc::Global;

/// The entry of a certificate in a ledger.
pub fn line(alloc: Global, cert: &Cert) -> Result<Line, Memory>
    ensures entry { IfOk result (λ line. line ≡ entry cert.now) }
    ensures in_range { OnOk result (Fits cert.now) }
{
    let mut out = Line::new(alloc);
    out.append(b"\n{\"added\":")?;
    push_added(&mut out, cert.added())?;
    out.append(b",\"base\":")?;
    push_number(&mut out, cert.base())?;
    out.append(b",\"commit\":")?;
    push_number(&mut out, cert.commit())?;
    out.append(b",\"gone\":")?;
    push_numbers(&mut out, cert.gone())?;
    out.append(b",\"head\":")?;
    push_number(&mut out, cert.head())?;
    out.append(b",\"never\":")?;
    push_never(&mut out, cert.never())?;
    out.append(b",\"root\":")?;
    push_number(&mut out, cert.root())?;
    out.append(b"}\n")?;
    Ok(out)
}

fn push_number(out: &mut Line, n: u64) -> Result<(), Memory>
    ensures text { OnOk result (out.new ≡ out.old ++ decimal n) }
    ensures fits { n < 2 ^ 64 }
{
    out.append(itoa::Buffer::new().format(n).as_bytes())
}

fn push_comma(out: &mut Line, later: bool) -> Result<(), Memory>
    ensures { OnOk result (out.new ≡ out.old ++ comma_if later) }
{
    if later {
        out.append(b",")?;
    }
    Ok(())
}

// The numbers, and the bracket that closes them. `later`: something stands before them.
fn push_items(out: &mut Line, later: bool, numbers: &Addrs) -> Result<(), Memory>
    ensures text { OnOk result (out.new ≡ out.old ++ items_text later (items_of (map whole numbers.now))) }
    ensures fits { OnOk result (AllByRecursion (λ n. n < 2 ^ 64) numbers.now) }
{
    let mut after = later;
    for i in 0..numbers.len() {
        push_comma(out, after)?;
        push_number(out, *numbers.at(i))?;
        after = true;
    }
    out.append(b"]")
}

fn push_unkept(out: &mut Line, page: &Unkept) -> Result<(), Memory>
    ensures text { OnOk result (out.new ≡ out.old ++ compact_text (never_json page.now)) }
    ensures fits { OnOk result (PageFits page.now) }
{
    out.append(b"[")?;
    push_number(out, page.block)?;
    out.append(b",")?;
    push_number(out, page.addr)?;
    out.append(b"]")
}

fn push_never(out: &mut Line, pages: &UnkeptList) -> Result<(), Memory>
    ensures text { OnOk result (out.new ≡ out.old ++ compact_text (array_of never_json pages.now)) }
    ensures fits { OnOk result (AllByRecursion PageFits pages.now) }
{
    out.append(b"[")?;
    let mut after = false;
    for i in 0..pages.len() {
        push_comma(out, after)?;
        push_unkept(out, pages.at(i))?;
        after = true;
    }
    out.append(b"]")
}

fn push_traced(out: &mut Line, added: &Added) -> Result<(), Memory>
    ensures text { OnOk result (out.new ≡ out.old ++ compact_text (added_json (traced added.now))) }
    ensures fits { OnOk result (TracedFits (traced added.now)) }
{
    out.append(b"[")?;
    push_number(out, added.addr)?;
    match added.block {
        Some(block) => {
            out.append(b",0,")?;
            push_number(out, block)?;
            out.append(b"]")
        }
        None => {
            out.append(b",1")?;
            push_items(out, true, &added.children)
        }
    }
}

fn push_added(out: &mut Line, added: &AddedList) -> Result<(), Memory>
    ensures text { OnOk result (out.new ≡ out.old ++ compact_text (array_of added_json added.now)) }
    ensures fits { OnOk result (AllByRecursion TracedFits added.now) }
{
    out.append(b"[")?;
    let mut after = false;
    for i in 0..added.len() {
        push_comma(out, after)?;
        push_traced(out, added.at(i))?;
        after = true;
    }
    out.append(b"]")
}

fn push_numbers(out: &mut Line, items: &Addrs) -> Result<(), Memory>
    ensures text { OnOk result (out.new ≡ out.old ++ compact_text (numbers items.now)) }
    ensures fits { OnOk result (AllByRecursion (λ n. n < 2 ^ 64) items.now) }
{
    out.append(b"[")?;
    push_items(out, false, items)
}
