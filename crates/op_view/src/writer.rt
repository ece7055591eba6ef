//! A text of lines, each of words with a blank between them.
use itoa::Buffer;
use op_base::NoMemory;
use std::alloc::Global;

/// A word of a line.
#[derive(Clone, Copy)]
pub enum Word<'a> {
    Plain(&'a str),
    Number(i32),
    /// A word with a number right behind it.
    Numbered(&'a str, u32),
    /// A word with a number of bytes right behind it.
    Bytes(&'a str, u64),
    /// A name, and the number of the row that has it.
    Named(&'a [u8], u32),
    /// Bytes as a literal of Pascal.
    Literal(&'a [u8]),
    /// No word at all.
    Nothing,
}

/// What was written so far, and how far in the lines begin.
#[derive(Drop)]
pub struct Writer {
    text: Vec<u8>,
    depth: u32,
    is_first: bool,
}

impl Writer {
    pub fn new(alloc: Global) -> Writer {
        Writer {
            text: Vec::new(alloc),
            depth: 0,
            is_first: true,
        }
    }

    pub fn into_vec(self) -> Vec<u8> {
        self.text
    }

    /// Begins a line.
    pub fn begin(&mut self) -> Result<(), NoMemory> {
        for _ in 0..self.depth {
            self.text.extend_from_slice(b"  ")?;
        }
        self.is_first = true;
        Ok(())
    }

    /// Ends a line.
    pub fn end(&mut self) -> Result<(), NoMemory> {
        self.text.push(b'\n')?;
        Ok(())
    }

    /// Puts words on the line.
    pub fn words(&mut self, words: &[Word]) -> Result<(), NoMemory> {
        for word in words {
            self.word(*word)?;
        }
        Ok(())
    }

    /// A whole line.
    pub fn line(&mut self, words: &[Word]) -> Result<(), NoMemory> {
        self.begin()?;
        self.words(words)?;
        self.end()
    }

    /// The next lines begin further in.
    pub fn enter(&mut self) {
        self.depth = self.depth.saturating_add(1);
    }

    /// The next lines begin less far in.
    pub fn leave(&mut self) {
        self.depth = self.depth.saturating_sub(1);
    }

    fn word(&mut self, word: Word) -> Result<(), NoMemory> {
        match word {
            Word::Plain(text) => self.plain(text.as_bytes()),
            Word::Number(number) => self.number(number),
            Word::Numbered(text, number) => self.numbered(text.as_bytes(), number),
            Word::Bytes(text, number) => self.bytes(text.as_bytes(), number),
            Word::Named(name, number) => self.named(name, number),
            Word::Literal(bytes) => self.literal(bytes),
            Word::Nothing => Ok(()),
        }
    }

    fn plain(&mut self, text: &[u8]) -> Result<(), NoMemory> {
        if !self.is_first {
            self.text.push(b' ')?;
        }
        self.is_first = false;
        self.text.extend_from_slice(text)?;
        Ok(())
    }

    fn number(&mut self, number: i32) -> Result<(), NoMemory> {
        let mut digits = Buffer::new();
        self.plain(digits.format(number).as_bytes())
    }

    fn numbered(&mut self, text: &[u8], number: u32) -> Result<(), NoMemory> {
        self.plain(text)?;
        self.digits(number)
    }

    fn bytes(&mut self, text: &[u8], number: u64) -> Result<(), NoMemory> {
        self.plain(text)?;
        let mut digits = Buffer::new();
        self.text
            .extend_from_slice(digits.format(number).as_bytes())?;
        Ok(())
    }

    fn named(&mut self, name: &[u8], number: u32) -> Result<(), NoMemory> {
        self.plain(name)?;
        self.text.push(b'#')?;
        self.digits(number)
    }

    fn digits(&mut self, number: u32) -> Result<(), NoMemory> {
        let mut digits = Buffer::new();
        self.text
            .extend_from_slice(digits.format(number).as_bytes())?;
        Ok(())
    }

    /// Characters that can be printed stand between quotes, and the others as their numbers behind `#`.
    fn literal(&mut self, bytes: &[u8]) -> Result<(), NoMemory> {
        self.plain(b"'")?;
        let mut is_open = true;
        for byte in bytes {
            is_open = self.literal_byte(*byte, is_open)?;
        }
        if is_open {
            self.text.push(b'\'')?;
        }
        Ok(())
    }

    /// A byte of a literal, where quotes are open or not. Answers whether they are open behind it.
    fn literal_byte(&mut self, byte: u8, is_open: bool) -> Result<bool, NoMemory> {
        let is_printed = byte == b' ' || byte.is_ascii_graphic();
        if is_printed != is_open {
            self.text.push(b'\'')?;
        }
        match byte {
            b'\'' => self.text.extend_from_slice(b"''")?,
            _ if is_printed => self.text.push(byte)?,
            _ => {
                self.text.push(b'#')?;
                self.digits(byte as u32)?;
            }
        }
        Ok(is_printed)
    }
}
