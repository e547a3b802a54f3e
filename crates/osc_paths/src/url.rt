//! Return addresses.

ghost use Rattle.std.specs.Prelude.{◌≡◌, ◌≤◌, option_map, IfSome};
ghost use Rattle.osc_paths.specs.Texts.{cut_at};
ghost use Rattle.osc_paths.specs.Urls.{without_scheme, dotted_in, host_in, without_slash, port_in, address_in, url_in, IsUrl};
ghost use Rattle.sl_base.specs.declared.addr.Addr.{Addr};

use crate::text::{cut_at, number_up_to};
use sl_base::Addr;

/// 127.0.0.1.
const LOOPBACK: u32 = 2130706433;

fn without_scheme(bytes: &[u8]) -> &[u8]
    ensures { result.now ≡ without_scheme bytes.now }
{
    if bytes.starts_with(b"osc.udp://") {
        &bytes[10..]
    } else {
        bytes
    }
}

/// Four numbers with dots between them.
#[tactic(auto, unfolding(crate::specs::Urls::dotted_in))]
fn dotted_in(host: &[u8]) -> Option<u32>
    ensures { result ≡ dotted_in host.now }
{
    let (a, rest) = cut_at(host, b'.')?;
    let (b, rest) = cut_at(rest, b'.')?;
    let (c, d) = cut_at(rest, b'.')?;
    let a = number_up_to(255, a)?;
    let b = number_up_to(255, b)?;
    let c = number_up_to(255, c)?;
    let d = number_up_to(255, d)?;
    Some((((a * 256 + b) * 256 + c) * 256 + d) as u32)
}

fn host_in(host: &[u8]) -> Option<u32>
    ensures { result ≡ host_in host.now }
{
    if host == b"localhost".as_slice() {
        Some(LOOPBACK)
    } else {
        dotted_in(host)
    }
}

/// What stands before a `/` at the end.
fn without_slash(bytes: &[u8]) -> &[u8]
    ensures { result.now ≡ without_slash bytes.now (cut_at 47 bytes.now) }
{
    match cut_at(bytes, b'/') {
        Some((front, [])) => front,
        _ => bytes,
    }
}

fn port_in(bytes: &[u8]) -> Option<u16>
    ensures { result ≡ port_in bytes.now }
{
    let port = number_up_to(65535, without_slash(bytes))?;
    if port == 0 { None } else { Some(port as u16) }
}

#[tactic(auto, unfolding(crate::specs::Urls::address_in))]
fn address_in(bytes: &[u8]) -> Option<Addr>
    ensures { result ≡ address_in bytes.now }
{
    let (host, port) = cut_at(without_scheme(bytes), b':')?;
    let ip = host_in(host)?;
    let port = port_in(port)?;
    Some(Addr { ip, port })
}

#[tactic(auto, unfolding(crate::specs::Urls::url_in))]
pub(crate) fn url_in(bytes: &[u8], from: Addr) -> Option<Addr>
    ensures { result ≡ url_in from bytes.now }
{
    if bytes.is_empty() {
        Some(from)
    } else {
        address_in(bytes)
    }
}

/// The address that a url gives to a packet from somewhere: an empty one is where the packet came
/// from. It takes no memory.
pub fn url_of(bytes: &[u8], from: Addr) -> Option<Addr>
    ensures found { IfSome result (IsUrl from bytes.now) }
    ensures only { (addr : Addr) → IsUrl from bytes.now addr → result ≡ Some addr }
    ensures value { result ≡ url_in from bytes.now }
{
    url_in(bytes, from)
}
