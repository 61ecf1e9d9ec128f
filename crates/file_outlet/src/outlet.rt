// The three files of a run as its outlet.
ghost use base.Fml.{GName};
ghost use Rattle.std.specs.Prelude.{◌≡◌, ◌≤◌, ◌+◌, ◌++◌, take, length};
ghost use Rattle.avm_outside.specs.Outlet.{packet};
ghost use Rattle.file_outlet.specs.RunFiles.{Held, Others, adding_piece, TornPiece, others_of, spelled};

use avm_outside::{Failed, Files, Outlet};

const FRAME: usize = 20_008;

// Puts bytes at a place, behind what stands before it.
fn put_at(frame: &mut [u8; FRAME], at: usize, bytes: &[u8])
    requires { at + length bytes.now ≤ 20008 }
    ensures { take (at + length bytes.now) frame.new ≡ take at frame.old ++ bytes.now }
{
    frame[at..at + bytes.len()].copy_from_slice(bytes);
}

// Puts a packet behind its peer and its length at the front of a buffer, and gives these bytes.
#[tactic(auto, unfolding(avm_num::specs::Lists::be))]
fn spell<'b>(frame: &'b mut [u8; FRAME], peer: u32, bytes: &[u8]) -> &'b [u8]
    requires { length bytes.now ≤ 20000 }
    ensures { result.now ≡ spelled (packet peer bytes.now) }
{
    put_at(frame, 0, &peer.to_be_bytes());
    put_at(frame, 4, &(bytes.len() as u32).to_be_bytes());
    put_at(frame, 8, bytes);
    &frame[..8 + bytes.len()]
}

/// The files of packets, console lines and authenticators, by their names. Each piece is appended in one call: a packet
/// behind its peer and its length.
#[derive(Drop)]
pub struct FileOutlet<'a, F: Files> {
    files: &'a mut F,
    packets: &'a str,
    console: &'a str,
    auths: &'a str,
    frame: [u8; FRAME],
}

impl<'a, F: Files> FileOutlet<'a, F> {
    /// The outlet over these files.
    pub fn new(
        files: &'a mut F,
        packets: &'a str,
        console: &'a str,
        auths: &'a str,
    ) -> FileOutlet<'a, F>
        ensures same_reference { result.files.ghost_name ≡ files.entry.ghost_name }
        ensures files { result.files.now ≡ files.old }
        ensures packets { result.packets.now ≡ packets.now }
        ensures console { result.console.now ≡ console.now }
        ensures auths { result.auths.now ≡ auths.now }
    {
        FileOutlet {
            files,
            packets,
            console,
            auths,
            frame: [0; FRAME],
        }
    }
}

impl<'a, F: Files> Outlet for FileOutlet<'a, F> {
    ghost faults = { λ o. F.faults o.files.now };

    ghost Loan = { GName × Others };

    ghost loan = { λ o. (o.files.ghost_name, others_of (record { packets = o.packets.now; console = o.console.now; auths = o.auths.now; files = F.file o.files.now })) };

    ghost Held = { Held };

    ghost held = { λ o. record { packets = o.packets.now; console = o.console.now; auths = o.auths.now; files = F.file o.files.now } };

    ghost adding = { adding_piece };

    ghost tearing = { TornPiece };

    fn packet(&mut self, peer: u32, bytes: &[u8]) -> Result<(), Failed> {
        let frame = spell(&mut self.frame, peer, bytes);
        self.files.append(self.packets, frame)
    }

    fn console(&mut self, bytes: &[u8]) -> Result<(), Failed> {
        self.files.append(self.console, bytes)
    }

    fn authenticator(&mut self, bytes: &[u8]) -> Result<(), Failed> {
        self.files.append(self.auths, bytes)
    }
}
