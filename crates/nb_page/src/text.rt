ghost use Rattle.std.specs.Prelude.{◌≡◌, ◌≤◌, IsTrue, length, is_some, IfSome, nat_le};
ghost use Rattle.nb_fields.specs.Places.{is_page_size};
ghost use Rattle.nb_fields.specs.Page.{with_payload};
ghost use Rattle.nb_fields.specs.Payloads.{text_payload, text_length, text_of};

use nb_fields::layouts::raw;

/// The text of a raw page, and none exactly where its length is greater than a text's may be.
#[tactic(auto, using(nb_fields::proofs::SizeLaws::size_facts))]
pub fn raw_text(page: &[u8]) -> Option<&[u8]>
    requires { IsTrue (is_page_size (length page.now)) }
    ensures exact { is_some result ≡ nat_le (text_length page.now) 200 }
    ensures text { IfSome result (λ text. text.now ≡ text_of page.now) }
{
    let length = raw::TextLength::get(page) as usize;
    if length > raw::MOST_TEXT {
        return None;
    }
    Some(&page[raw::TEXT_AT..raw::TEXT_AT + length])
}

/// Makes this text what stands after the head of a page: its length, its bytes, and zeros.
pub fn put_text(page: &mut [u8], text: &[u8])
    requires size { IsTrue (is_page_size (length page.old)) }
    requires short { length text.now ≤ 200 }
    ensures written { page.new ≡ with_payload page.old (text_payload text.now) }
    ensures text { text_of page.new ≡ text.now }
{
    let end = raw::TEXT_AT + text.len();
    raw::TextLength::put(page, text.len() as u64);
    page[raw::TEXT_AT..end].copy_from_slice(text);
    page[end..].fill(0);
}
