//! Numbers, sets, streams, stamps, placements and proposals as bytes, for which there is room.
ghost use Rattle.std.specs.Prelude.{◌≡◌, ◌≤◌, ◌+◌, ◌++◌, ◌∷◌, [], length};
ghost use Rattle.zeus_base.specs.Bits.{bits_of};
ghost use Rattle.zeus_wire.specs.Ranges.{IsProposal, IsSet, IsStamp, room};
ghost use Rattle.zeus_model.specs.PacketSpelling.{place_bytes, proposal_bytes, stamp_bytes, u16_bytes, u64_bytes};

use zeus_packet::{NodeSet, ObjId, Place, Proposal, Stamp};

/// Appends the bytes.
pub fn write_bytes(out: &mut Vec<u8>, bytes: &[u8])
    requires { length bytes.now ≤ room out.old }
    ensures bytes { out.new.items ≡ out.old.items ++ bytes.now }
    ensures room { room out.old ≤ room out.new + length bytes.now }
{
    out.extend_from_slice(bytes).unwrap()
}

/// Appends the byte.
pub fn write_u8(out: &mut Vec<u8>, byte: u8)
    requires { 1 ≤ room out.old }
    ensures bytes { out.new.items ≡ out.old.items ++ byte ∷ [] }
    ensures room { room out.old ≤ room out.new + 1 }
{
    out.push_reserved(byte);
}

/// Appends the number, the most significant byte first.
#[tactic(auto, unfolding(zeus_model::specs::PacketSpelling::u64_bytes))]
pub fn write_u64(out: &mut Vec<u8>, number: u64)
    requires { 8 ≤ room out.old }
    ensures bytes { out.new.items ≡ out.old.items ++ u64_bytes number }
    ensures room { room out.old ≤ room out.new + 8 }
{
    write_bytes(out, &number.to_be_bytes());
}

/// Appends a tag and the object, its more significant byte first.
#[tactic(auto, using(crate::proofs::Numbers::two_alone))]
pub fn write_object(out: &mut Vec<u8>, tag: u8, obj: ObjId)
    requires { 3 ≤ room out.old }
    ensures bytes { out.new.items ≡ out.old.items ++ tag ∷ u16_bytes obj }
    ensures room { room out.old ≤ room out.new + 3 }
{
    let [high, low] = obj.0.to_be_bytes();
    write_bytes(out, &[tag, high, low]);
}

/// The byte of a set of nodes: a bit for each node, the lowest for node 0.
#[tactic(auto, using(crate::proofs::Sets::set_of_byte))]
pub fn byte_of(nodes: NodeSet) -> u8
    ensures byte { result ≡ bits_of nodes }
    ensures set { IsSet nodes }
{
    nodes.bits
}

/// The version of the stamp, its most significant byte first.
#[tactic(auto, unfolding(zeus_model::specs::PacketSpelling::u64_bytes))]
fn version_of(stamp: &Stamp) -> [u8; 8]
    ensures bytes { result ≡ u64_bytes stamp.now.ver }
    ensures stamp { IsStamp stamp.now }
{
    stamp.ver.to_be_bytes()
}

/// Appends the version of the stamp, the most significant byte first, and its driver.
#[tactic(auto, using(std::proofs::Common::append_assoc), unfolding(zeus_model::specs::PacketSpelling::stamp_bytes))]
pub fn write_stamp(out: &mut Vec<u8>, stamp: &Stamp)
    requires { 9 ≤ room out.old }
    ensures bytes { out.new.items ≡ out.old.items ++ stamp_bytes stamp.now }
    ensures room { room out.old ≤ room out.new + 9 }
    ensures stamp { IsStamp stamp.now }
{
    write_u64(out, stamp.ver);
    write_u8(out, stamp.driver.0);
}

/// Appends the owner and the byte of the replicas.
#[tactic(auto, unfolding(zeus_model::specs::PacketSpelling::place_bytes, zeus_model::specs::PacketSpelling::set_bytes))]
pub fn write_place(out: &mut Vec<u8>, place: &Place)
    requires { 2 ≤ room out.old }
    ensures bytes { out.new.items ≡ out.old.items ++ place_bytes place.now }
    ensures room { room out.old ≤ room out.new + 2 }
    ensures set { IsSet place.now.replicas }
{
    write_bytes(out, &[place.owner.0, byte_of(place.replicas)]);
}

/// Appends the stamp, the requester, the stamp of the base and its placement: all in one, because most letters have one.
#[tactic(auto, using(crate::proofs::Numbers::proposal_spelled))]
pub fn write_proposal(out: &mut Vec<u8>, p: &Proposal)
    requires { 21 ≤ room out.old }
    ensures bytes { out.new.items ≡ out.old.items ++ proposal_bytes p.now }
    ensures room { room out.old ≤ room out.new + 21 }
    ensures proposal { IsProposal p.now }
{
    let [a, b, c, d, e, f, g, h] = version_of(&p.stamp);
    let [i, j, k, l, m, n, o, q] = version_of(&p.base);
    let (driver, requester, other) = (p.stamp.driver.0, p.requester.0, p.base.driver.0);
    let (owner, replicas) = (p.base_place.owner.0, byte_of(p.base_place.replicas));
    write_bytes(
        out,
        &[
            a, b, c, d, e, f, g, h, driver, requester, i, j, k, l, m, n, o, q, other, owner,
            replicas,
        ],
    );
}
