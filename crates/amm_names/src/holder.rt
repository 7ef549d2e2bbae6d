//! Who holds, and what is held.
ghost use Rattle.std.specs.Prelude.{◌≡◌, IfOk};
ghost use Rattle.amm_names.specs.Holders.{holder_of, asset_of};

use crate::{Memory, PoolName, TokenName, UserName};
use std::alloc::Global;

/// Who can hold units of an asset.
#[derive(Clone, Copy, PartialEq, Eq, Hash, PartialOrd, Ord, Drop)]
pub enum Holder {
    User(UserName),
    Pool(PoolName),
    Token(TokenName),
    Zero,
}

impl Holder {
    /// Reads a holder, if the bytes spell one.
    #[tactic(auto, unfolding(crate::specs::Holders::holder_of))]
    pub fn read(alloc: Global, bytes: &[u8]) -> Result<Option<Holder>, Memory>
        ensures { IfOk result (λ holder. holder ≡ holder_of bytes.now) }
    {
        if bytes == b"0".as_slice() {
            return Ok(Some(Holder::Zero));
        }
        if let Some(name) = UserName::read(alloc, bytes)? {
            return Ok(Some(Holder::User(name)));
        }
        if let Some(name) = TokenName::read(alloc, bytes)? {
            return Ok(Some(Holder::Token(name)));
        }
        match PoolName::read(alloc, bytes)? {
            Some(name) => Ok(Some(Holder::Pool(name))),
            None => Ok(None),
        }
    }

    pub fn copy(&self, alloc: Global) -> Result<Holder, Memory>
        ensures { IfOk result (λ holder. holder ≡ self.now) }
    {
        Ok(*self)
    }
}

/// What can be held.
#[derive(Clone, Copy, PartialEq, Eq, Hash, PartialOrd, Ord, Drop)]
pub enum Asset {
    Token(TokenName),
    Share(PoolName),
}

impl Asset {
    /// Reads an asset, if the bytes spell one.
    #[tactic(auto, unfolding(crate::specs::Holders::asset_of))]
    pub fn read(alloc: Global, bytes: &[u8]) -> Result<Option<Asset>, Memory>
        ensures { IfOk result (λ asset. asset ≡ asset_of bytes.now) }
    {
        if let Some(name) = TokenName::read(alloc, bytes)? {
            return Ok(Some(Asset::Token(name)));
        }
        match PoolName::read(alloc, bytes)? {
            Some(name) => Ok(Some(Asset::Share(name))),
            None => Ok(None),
        }
    }

    pub fn copy(&self, alloc: Global) -> Result<Asset, Memory>
        ensures { IfOk result (λ asset. asset ≡ self.now) }
    {
        Ok(*self)
    }
}
