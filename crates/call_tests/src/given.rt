// What these tests speak of. The root is that of two zero chunks, which stands in the deposit
// contract.

pub const TYPES: &[u8] =
    b"{\"ssz\":1,\"types\":[[\"P\",{\"container\":[[\"a\",\"uint64\"],[\"b\",\"uint64\"]]}]]}";

pub const FORMS: &[u8] = b"{\"ssz\":1,\"types\":[[\"L\",{\"list\":[\"uint64\",4]}],\
[\"U\",{\"union\":[null,\"uint8\"]}],[\"Q\",{\"container\":[[\"l\",\"L\"]]}],\
[\"R\",{\"container\":[[\"l\",\"L\"],[\"u\",\"U\"]]}]]}";

pub const ZEROS: [u8; 32] = [
    0xf5, 0xa5, 0xfd, 0x42, 0xd1, 0x6a, 0x20, 0x30, 0x27, 0x98, 0xef, 0x6e, 0xd3, 0x09, 0x97, 0x9b,
    0x43, 0x00, 0x3d, 0x23, 0x20, 0xd9, 0xf0, 0xe8, 0xea, 0x98, 0x31, 0xa9, 0x27, 0x59, 0xfb, 0x4b,
];
