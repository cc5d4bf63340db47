// A bank's listing: 01, 'Bench cases'.
ghost use Rattle.std.specs.Prelude.{◌≡◌};
ghost use Rattle.bank.specs.Bank.{Bank, valid};
ghost use Rattle.bank.specs.Read.{read_bank};
ghost use Rattle.bank.specs.Totals.{total as total_of};
ghost use Rattle.bank.specs.Answer.{partition_of};
ghost use Rattle.text.specs.Put.{Room, Put, IsPrefixLen, printed_length, printed_out};
ghost use Rattle.banklist.specs.Listing.{record_lines, bank_lines, listing as listing_of, out_size};

use super::lines::{bank_line, record_line, used_line};
use bank::{Partition, Slot, VarHeader, Variable};
use text::Writer;

// Bytes enough for any listing: a record of n bytes makes a line of at most 2 * n.
pub(crate) const OUT: usize = 3 * Partition::SIZE;

// The records' lines, walked in the bank's own bytes up to total: by hand, as `bank` walks them.
fn record_lines(w: &mut Writer, nvr: &[u8; Partition::SIZE], total: usize)
    requires { (b : Bank) × (read_bank nvr.now ≡ valid b) × (total ≡ total_of b) × Room w.old (record_lines 0 b.records) }
    ensures { (b : Bank) → read_bank nvr.now ≡ valid b → Put w.old w.new (record_lines 0 b.records) }
{
    let mut at = Variable::STORE_HEADER_SIZE;
    let mut index: u64 = 0;
    while at < total {
        let h = VarHeader::parse(&nvr[at..]);
        let key = at + Variable::HEADER_SIZE;
        let closing = at + Variable::size(h.name_size, 0) - 1;
        record_line(w, index, h, &nvr[key..closing]);
        at += Variable::size(h.name_size, h.data_size);
        index += 1;
    }
}

fn bank_lines(w: &mut Writer, nvr: &[u8; Partition::SIZE], p: Partition)
    requires { (b : Bank) × (read_bank nvr.now ≡ valid b) × (p ≡ partition_of b) × Room w.old (bank_lines b) }
    ensures { (b : Bank) → read_bank nvr.now ≡ valid b → Put w.old w.new (bank_lines b) }
{
    bank_line(w, p.header);
    record_lines(w, nvr, p.total_used);
    used_line(w, p.total_used, p.usable_size);
}

fn put_listing(w: &mut Writer, nvr: &[u8])
    requires { Room w.old (listing_of nvr.now) }
    ensures { Put w.old w.new (listing_of nvr.now) }
{
    let Some(bank) = nvr.first_chunk::<{ Partition::SIZE }>() else {
        return w.put_all(b"short\n");
    };
    match Partition::read(bank) {
        Slot::Empty => w.put_all(b"empty\n"),
        Slot::Invalid => w.put_all(b"invalid\n"),
        Slot::Valid(p) => bank_lines(w, bank, p),
    }
}

// The listing of what nvr begins with, at the front of out, and its length; 0, and out as it was, where out has fewer than OUT bytes.
pub(crate) fn listing(nvr: &[u8], out: &mut [u8]) -> usize
    ensures prefix_len { IsPrefixLen result out.new }
    ensures value { (result ≡ printed_length out_size (listing_of nvr.now) out.old) × (out.new ≡ printed_out out_size (listing_of nvr.now) out.old) }
{
    if out.len() < OUT {
        return 0;
    }
    let mut w = Writer::new(out);
    put_listing(&mut w, nvr);
    w.at
}
