// The lines of a listing: 01, 'Bench cases'.
ghost use Rattle.text.specs.Text.{field};
ghost use Rattle.text.specs.Put.{Room, Put};
ghost use Rattle.banklist.specs.Listing.{type_word, key_word, bank_line, fields_line, used_line};

use bank::{StoreHeader, VarHeader, VarType, Variable};
use text::{FEED, SPACE, Writer};

pub(crate) fn bank_line(w: &mut Writer, h: StoreHeader)
    requires { Room w.old (bank_line h) }
    ensures { Put w.old w.new (bank_line h) }
{
    w.put_all(b"bank ");
    w.put_number(u64::from(h.size), SPACE);
    w.put_number(u64::from(h.generation), SPACE);
    w.put_number(u64::from(h.system_size), SPACE);
    w.put_number(u64::from(h.common_size), FEED);
}

#[tactic(auto, unfolding(crate::specs::Listing::type_word, text::specs::Text::field))]
fn put_type(w: &mut Writer, typ: VarType)
    requires { Room w.old (field (type_word typ) 0x20) }
    ensures { Put w.old w.new (field (type_word typ) 0x20) }
{
    match typ {
        VarType::System => w.put_all(b"S "),
        VarType::Common => w.put_all(b"C "),
    }
}

#[tactic(auto, using(crate::proofs::KeyLaws::key_none, crate::proofs::KeyLaws::key_some), unfolding(text::specs::Text::field))]
fn put_key(w: &mut Writer, key: &[u8])
    requires { Room w.old (field (key_word key.now) 0x20) }
    ensures { Put w.old w.new (field (key_word key.now) 0x20) }
{
    if key.is_empty() {
        w.put_all(b"- ");
    } else {
        w.put_hex(key, SPACE);
    }
}

pub(crate) fn record_line(w: &mut Writer, index: u64, h: VarHeader, key: &[u8])
    requires { Room w.old (fields_line index h.state h.guid key.now h.data_size h.crc) }
    ensures { Put w.old w.new (fields_line index h.state h.guid key.now h.data_size h.crc) }
{
    let guid = h.guid;
    w.put_number(index, SPACE);
    w.put_hex(&[h.state], SPACE);
    put_type(w, Variable::typ(&guid));
    put_key(w, key);
    w.put_number(u64::from(h.data_size), SPACE);
    w.put_hex(&h.crc.to_be_bytes(), FEED);
}

pub(crate) fn used_line(w: &mut Writer, used: usize, usable: usize)
    requires { Room w.old (used_line used usable) }
    ensures { Put w.old w.new (used_line used usable) }
{
    w.put_all(b"used ");
    w.put_number(used as u64, SPACE);
    w.put_all(b"usable ");
    w.put_number(usable as u64, FEED);
}
