//! Copies of names, with ample memory.
use amm_model::{Asset, Holder, PoolName, TokenName, UserName};
use std::alloc::Global;
use std::test::Fail;

/// Whether a copy of each name that the text spells is that name.
fn copies(alloc: Global, text: &str) -> Result<bool, Fail> {
    let bytes = text.as_bytes();
    let mut same = true;
    if let Some(name) = TokenName::read(alloc, bytes)? {
        same = same && name.copy(alloc)?.as_bytes() == bytes;
    }
    if let Some(name) = UserName::read(alloc, bytes)? {
        same = same && name.copy(alloc)?.as_bytes() == bytes;
    }
    if let Some(name) = PoolName::read(alloc, bytes)? {
        same = same && name.copy(alloc)?.as_bytes() == bytes;
    }
    if let Some(asset) = Asset::read(alloc, bytes)? {
        same = same && asset.copy(alloc)? == asset;
    }
    if let Some(holder) = Holder::read(alloc, bytes)? {
        return Ok(same && holder.copy(alloc)? == holder);
    }
    Ok(false)
}

#[test]
fn copies_are_the_same(rt: HostRuntime) -> Result<(), Fail> {
    for text in [
        "0",
        "A",
        "ABCDEFGHIJ12",
        "a",
        "alice_7",
        "A/B",
        "ETH/USD:1",
        "ABCDEFGHIJ12/B0:10",
    ] {
        assert!(rt; copies(rt.alloc(), text)?, "{text}");
    }
    assert!(rt; !copies(rt.alloc(), "B/A")?);
    Ok(())
}
