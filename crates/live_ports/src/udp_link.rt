//! A UDP socket as a link.

ghost use Rattle.std.specs.Prelude.{◌≡◌};
ghost use Rattle.live_ports.specs.Links.{IsWithin, uncalled, untold};

use crate::link::{Link, LinkAnswer};
use sl_base::Addr;
use sl_ports::SinkAnswer;
use std::io;
use std::io::ErrorKind;
use std::marker::Model;
use std::net::{Ipv4Addr, Net, SocketAddr, SocketAddrV4, UdpSocket};
use std::time::Duration;

/// At which addresses of this machine a link listens.
#[derive(Clone, Copy, Debug, PartialEq, Eq)]
pub enum Listen {
    /// At 127.0.0.1, which only programs of this machine reach.
    Local,
    /// At all of them.
    All,
}

/// Receives and sends datagrams of IPv4. It tells nothing of what they hold.
///
/// A receive waits for so long at most, and then gives nothing for now. A link whose socket
/// couldn't be opened fails at each call.
#[derive(Drop)]
pub struct UdpLink {
    socket: Option<UdpSocket>,
    is_none: bool,
    receives: u64,
    sends: u64,
    idles: u64,
    ended: bool,
    first: Option<io::Error>,
}

impl Model for UdpLink {
    ghost use Rattle.live_ports.specs.Links.{CallCounts};

    ghost Value = { CallCounts };

    ghost view = { λ l. record {
      receives = l.receives;
      sends = l.sends;
      idles = l.idles;
      ended = l.ended;
    } };
}

/// The system's form of an address.
fn socket_addr(addr: Addr) -> SocketAddr {
    SocketAddr::V4(SocketAddrV4::new(Ipv4Addr::from_bits(addr.ip), addr.port))
}

/// An open socket whose receives wait for so long at most.
fn opened<R: Net>(rt: &R, listen: Listen, port: u16, wait: Duration) -> io::Result<UdpSocket> {
    let ip = match listen {
        Listen::Local => Ipv4Addr::LOCALHOST,
        Listen::All => Ipv4Addr::UNSPECIFIED,
    };
    let socket = UdpSocket::bind(rt, SocketAddr::V4(SocketAddrV4::new(ip, port)))?;
    socket.set_read_timeout(Some(wait))?;
    Ok(socket)
}

impl UdpLink {
    fn new(socket: Option<UdpSocket>, is_none: bool, first: Option<io::Error>) -> UdpLink
        ensures { result ≡ uncalled }
    {
        UdpLink {
            socket,
            is_none,
            receives: 0,
            sends: 0,
            idles: 0,
            ended: false,
            first,
        }
    }

    /// A link over a socket at this port. Port 0 is a free one. The wait isn't 0.
    pub fn bind<R: Net>(rt: &R, listen: Listen, port: u16, wait: Duration) -> UdpLink
        ensures { result ≡ uncalled }
    {
        match opened(rt, listen, port, wait) {
            Ok(socket) => UdpLink::new(Some(socket), false, None),
            Err(e) => UdpLink::new(None, false, Some(e)),
        }
    }

    /// A link to nowhere, which is at its end.
    pub fn none() -> UdpLink
        ensures { result ≡ uncalled }
    {
        UdpLink::new(None, true, None)
    }

    /// The port, where a socket is open.
    pub fn port(&self) -> Option<u16> {
        Some(self.socket.as_ref()?.local_addr().ok()?.port())
    }

    /// The system's error at opening, or at the first receive or send that failed, if any did.
    pub fn first_fault(&self) -> Option<&io::Error> {
        self.first.as_ref()
    }

    fn remember(&mut self, error: io::Error)
        ensures { self.new ≡ self.old }
    {
        if self.first.is_none() {
            self.first = Some(error);
        }
    }

    /// What the system gives to a receive, or why it doesn't.
    fn received(&mut self, buf: &mut [u8; 8192]) -> LinkAnswer
        ensures within { IsWithin result }
        ensures same { self.new ≡ self.old }
    {
        let Some(socket) = &self.socket else {
            return LinkAnswer::Failed;
        };
        match socket.recv_from(buf) {
            Ok((count, SocketAddr::V4(from))) => {
                let (ip, port) = (from.ip().to_bits(), from.port());
                LinkAnswer::Got(count, Addr { ip, port })
            }
            // No sender of IPv6 can be answered.
            Ok((_, SocketAddr::V6(_))) => LinkAnswer::Idle,
            Err(e) => match e.kind() {
                ErrorKind::WouldBlock | ErrorKind::TimedOut | ErrorKind::Interrupted => {
                    LinkAnswer::Idle
                }
                _ => {
                    self.remember(e);
                    LinkAnswer::Failed
                }
            },
        }
    }

    /// Hands a packet to the system. A part of one is none.
    fn sent(&self, to: Addr, bytes: &[u8]) -> io::Result<()> {
        let Some(socket) = &self.socket else {
            return Err(io::Error::from(ErrorKind::NotConnected));
        };
        if socket.send_to(bytes, socket_addr(to))? == bytes.len() {
            Ok(())
        } else {
            Err(io::Error::from(ErrorKind::WriteZero))
        }
    }
}

impl Link for UdpLink {
    ghost seen = { untold };

    fn recv(&mut self, buf: &mut [u8; 8192]) -> LinkAnswer {
        if self.is_none || self.ended {
            self.ended = true;
            return LinkAnswer::End;
        }
        let answer = self.received(buf);
        match answer {
            LinkAnswer::Got(_, _) => {}
            LinkAnswer::Idle => self.idles = self.idles.saturating_add(1),
            LinkAnswer::End => self.ended = true,
            LinkAnswer::Failed => self.receives = self.receives.saturating_add(1),
        }
        answer
    }

    fn send(&mut self, to: Addr, bytes: &[u8]) -> SinkAnswer {
        match self.sent(to, bytes) {
            Ok(()) => SinkAnswer::Done,
            Err(e) => {
                self.remember(e);
                self.sends = self.sends.saturating_add(1);
                SinkAnswer::Failed
            }
        }
    }
}
