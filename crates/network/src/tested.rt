// Files as far as they are tested. Each type is made where its test is passed, and a function that reads a file takes the type that it needs: so what
// the tests leave is known wherever the file is read. Each has the bytes of a link beside the file, read once: a loop that stores could not keep them.
ghost use Rattle.std.specs.Prelude.{◌≡◌};
ghost use Rattle.network.specs.File.{stride_of};
ghost use Rattle.network.specs.Accepted.{Header, Sound, Accepted};

// A file that passes the numbers 1 to 6: its edges can be read.
#[derive(Clone, Copy, Debug, PartialEq, Eq)]
pub struct ReadableFile<'a> {
    pub bytes: &'a [u8],
    pub stride: usize,
    pub ghost strided: { stride ≡ stride_of bytes.now },
    pub ghost header: { Header bytes.now },
}

// And 7: each edge joins two vertices.
#[derive(Clone, Copy, Debug, PartialEq, Eq)]
pub struct SoundFile<'a> {
    pub bytes: &'a [u8],
    pub stride: usize,
    pub ghost strided: { stride ≡ stride_of bytes.now },
    pub ghost sound: { Sound bytes.now },
}

// And 8 and 15: its edges ascend.
#[derive(Clone, Copy, Debug, PartialEq, Eq)]
pub struct AcceptedFile<'a> {
    pub bytes: &'a [u8],
    pub stride: usize,
    pub ghost strided: { stride ≡ stride_of bytes.now },
    pub ghost accepted: { Accepted bytes.now },
}
