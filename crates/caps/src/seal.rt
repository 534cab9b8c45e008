ghost use Rattle.std.specs.Prelude.{◌≡◌, ◌==◌};
ghost use Rattle.caps.specs.Grant.{check_of, capability_of, doubt_of, granted, restricted, is_genuine, has_rights};

use crate::capability::Capability;
use crate::denied::DeniedWhy;
use sha2::{Digest, Sha256};
use std::marker::Model;

/// What the capabilities of a live object are sealed with: the secret and the generation of its entry in the table.
#[derive(Clone, Copy, Debug)]
pub struct Seal {
    secret: [u8; 8],
    generation: u32,
}

impl Model for Seal {
    ghost use Rattle.caps.specs.Grant.{SealValue};

    ghost Value = { SealValue };

    ghost view = { λ s. record { secret = s.secret; generation = s.generation } };

    ghost inverse = { λ s. record { secret = s.secret; generation = s.generation } };
}

impl Seal {
    /// The seal of an entry with this secret and this generation.
    pub fn of(secret: [u8; 8], generation: u32) -> Seal
        ensures { result ≡ record { secret = secret; generation = generation } }
    {
        Seal { secret, generation }
    }

    /// The check of an object with these rights.
    #[tactic(auto, unfolding(crate::specs::Grant::check_of))]
    fn check(&self, object: u32, rights: u8) -> [u8; 6]
        ensures { result ≡ check_of self.now object rights }
    {
        let mut hasher = Sha256::new();
        hasher.update(self.secret.as_slice());
        hasher.update(self.generation.to_be_bytes().as_slice());
        hasher.update(&object.to_be_bytes()[1..]);
        hasher.update([rights].as_slice());
        let digest = hasher.finalize();
        let mut check = [0; 6];
        check.copy_from_slice(&digest[..6]);
        check
    }

    /// The capability of the object with these rights. Its number has three bytes.
    pub fn capability(&self, object: u32, rights: u8) -> Capability
        ensures { result ≡ capability_of self.now object rights }
    {
        let o = object.to_be_bytes();
        let c = self.check(object, rights);
        Capability::of_bytes(&[
            b'a', b'm', b'o', b'e', b'b', b'a', o[1], o[2], o[3], rights, c[0], c[1], c[2], c[3],
            c[4], c[5],
        ])
    }

    /// Whether the capability's check is the one that this seal makes.
    fn is_genuine(&self, cap: &Capability) -> bool
        ensures { result ≡ is_genuine self.now cap.now }
    {
        cap.check().as_slice() == self.check(cap.object(), cap.rights()).as_slice()
    }
}

/// What stands in the way of a capability before rights are asked for.
fn doubt_of(seal: &Option<Seal>, cap: &Capability) -> Option<DeniedWhy>
    ensures { result ≡ doubt_of seal.now cap.now }
{
    let Some(seal) = seal else {
        return Some(DeniedWhy::NoObject);
    };
    if cap.port().as_slice() != b"amoeba".as_slice() {
        Some(DeniedWhy::NoObject)
    } else if !seal.is_genuine(cap) {
        Some(DeniedWhy::Check)
    } else {
        None
    }
}

/// Whether every bit of the need is among the rights.
fn has_rights(rights: u8, need: u8) -> bool
    ensures { result ≡ has_rights rights need }
{
    rights & need == need
}

/// The object that a capability grants for a need, or why it does not. The seal is that of the object that the capability
/// names, where that is live.
pub fn granted(seal: &Option<Seal>, cap: &Capability, need: u8) -> Result<u32, DeniedWhy>
    ensures { result ≡ granted seal.now cap.now need }
{
    match doubt_of(seal, cap) {
        Some(why) => Err(why),
        None if has_rights(cap.rights(), need) => Ok(cap.object()),
        None => Err(DeniedWhy::Rights),
    }
}

/// The capability with the rights that both it and the mask have, or why there is none. The seal is as in `granted`.
pub fn restricted(seal: &Option<Seal>, cap: &Capability, mask: u8) -> Result<Capability, DeniedWhy>
    ensures { result ≡ restricted seal.now cap.now mask }
{
    let Some(own) = seal else {
        return Err(DeniedWhy::NoObject);
    };
    match doubt_of(seal, cap) {
        Some(why) => Err(why),
        None => Ok(own.capability(cap.object(), cap.rights() & mask)),
    }
}
