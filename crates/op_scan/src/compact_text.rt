//! The texts of tokens and trees, which are many and mostly short.
ghost use Rattle.std.specs.Prelude.{◌≡◌, ◌≤◌, IfOk, length, take};
ghost use Rattle.op_scan.specs.Compact.{content_of};

use op_base::NoMemory;
use std::alloc::Global;
use std::marker::Model;
use std::rc::Rc;

/// How many bytes take no room of their own.
const SHORT: usize = 14;

/// A list of bytes that takes 16 bytes, and more only where it is longer than 14. What a longer one takes more stands once for
/// all that share it.
#[derive(Debug, Drop)]
pub struct CompactText {
    content: Content,
}

#[derive(Debug, Drop)]
enum Content {
    /// The first bytes of these.
    Short { length: u8, bytes: [u8; 14] },
    Long(Rc<Vec<u8>>),
}

impl Model for CompactText {
    ghost use Rattle.std.specs.Prelude.{List, ℕ};
    ghost use Rattle.op_scan.specs.Compact.{content_of};

    ghost Value = { List ℕ };

    ghost view = { λ t. content_of t.content };
}

impl CompactText {
    /// A copy of these bytes.
    pub fn copy_of(alloc: Global, bytes: &[u8]) -> Result<CompactText, NoMemory>
        ensures { IfOk result (λ t. t ≡ bytes.now) }
    {
        let content = if bytes.len() <= SHORT {
            short(bytes)
        } else {
            long(alloc, bytes)?
        };
        Ok(CompactText { content })
    }

    /// The same text once more. No long text is copied: it has one owner more.
    pub fn share(&self) -> Result<CompactText, NoMemory>
        ensures { IfOk result (λ t. t ≡ self.now) }
    {
        let content = match &self.content {
            Content::Short { length, bytes } => Content::Short {
                length: *length,
                bytes: *bytes,
            },
            Content::Long(bytes) => Content::Long(bytes.clone()?),
        };
        Ok(CompactText { content })
    }

    pub fn as_slice(&self) -> &[u8]
        ensures { result.now ≡ self.now }
    {
        match &self.content {
            Content::Short { length, bytes } => first(*length as usize, bytes),
            Content::Long(bytes) => bytes.as_slice(),
        }
    }
}

fn short(bytes: &[u8]) -> Content
    requires { length bytes.now ≤ 14 }
    ensures { content_of result ≡ bytes.now }
{
    let mut room = [0; SHORT];
    room[..bytes.len()].copy_from_slice(bytes);
    Content::Short {
        length: bytes.len() as u8,
        bytes: room,
    }
}

fn long(alloc: Global, bytes: &[u8]) -> Result<Content, NoMemory>
    ensures { IfOk result (λ content. content_of content ≡ bytes.now) }
{
    let bytes = Vec::from_slice(alloc, bytes)?;
    Ok(Content::Long(Rc::new(alloc, bytes)?))
}

/// The first bytes, as many of so many as there are.
fn first(length: usize, bytes: &[u8]) -> &[u8]
    ensures { result.now ≡ take length bytes.now }
{
    if length < bytes.len() {
        &bytes[..length]
    } else {
        bytes
    }
}
