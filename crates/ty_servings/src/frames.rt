// Bodies, and their frames.
use std::alloc::Global;
use ty_base::NoMemory;

pub(crate) const HELLO: &str = "{\"m\":\"server_hello\",\"version\":1}";

pub(crate) const WAIT: &str = "{\"m\":\"status\",\"status\":\"wait-for-ready\"}";

pub(crate) const IN_SYNC: &str = "{\"m\":\"status\",\"status\":\"in-sync\"}";

pub(crate) const CRUMB_0: &str = "{\"m\":\"crumb\",\"n\":0}";

pub(crate) const CRUMB_1: &str = "{\"m\":\"crumb\",\"n\":1}";

pub(crate) const CRUMB_2: &str = "{\"m\":\"crumb\",\"n\":2}";

pub(crate) const READY: &str =
    "{\"kvs\":[{\"key\":\"/calico/v1/Ready\",\"type\":\"new\",\"value\":\"true\"}],\"m\":\"kvs\"}";

pub(crate) const FEED: &str =
    "{\"key\":\"/calico/v1/Ready\",\"value\":true}\n{\"status\":\"in-sync\"}\n";

pub(crate) fn framed(alloc: Global, bodies: &[&str]) -> Result<Vec<u8>, NoMemory> {
    let mut out = Vec::new(alloc);
    for body in bodies {
        out.push(0)?;
        out.push((body.len() / 65_536 % 256) as u8)?;
        out.push((body.len() / 256 % 256) as u8)?;
        out.push((body.len() % 256) as u8)?;
        out.extend_from_slice(body.as_bytes())?;
    }
    Ok(out)
}
