// Digests by an independent implementation, however the bytes are cut.
use zv_xxhash::{XxHash64, digest_with_last};

// A seed, a length, and the digest of that many bytes of the pattern: computed by the C library of
// xxHash 0.8.1 (bench/digest_values.c), and for seed 0 by its command `xxhsum -H1` too.
const VALUES: [(u64, usize, u64); 60] = [
    (0, 0, 0xEF46DB3751D8E999),
    (0, 1, 0xF592C0C7639C4CB6),
    (0, 2, 0x78F1AE91E3B05E99),
    (0, 3, 0x22C08528601D4F27),
    (0, 4, 0xFB1E5CF2F1AE4D95),
    (0, 5, 0x9D213ECA1F68F273),
    (0, 7, 0x5613AC510496C04E),
    (0, 8, 0x57CB2B7521F3E21A),
    (0, 9, 0xC3F1D09775257B66),
    (0, 12, 0x2F53B00266039E64),
    (0, 15, 0x90A9714EB00E8D29),
    (0, 16, 0xC6843CEF99721174),
    (0, 31, 0xE4A0E629E519A4AE),
    (0, 32, 0xCC6B8AAADA790B2D),
    (0, 33, 0x35EC49850475A832),
    (0, 40, 0x3B21ED23EEA85C2D),
    (0, 63, 0xBF9F0BA3CF95B28A),
    (0, 64, 0x155CCCE4BF32BEFC),
    (0, 65, 0xDA5EE441A595CFB8),
    (0, 100, 0x4826E367566EA023),
    (1, 0, 0xD5AFBA1336A3BE4B),
    (1, 1, 0x653CE83BAFFA4F91),
    (1, 2, 0x556ABE36B669491D),
    (1, 3, 0x5EBFDA8C9072A30D),
    (1, 4, 0x76C235E6330F623D),
    (1, 5, 0xDB663DEBD3CCD17A),
    (1, 7, 0xE75581B7BFA15EC7),
    (1, 8, 0xFBBEE60BA1FF4594),
    (1, 9, 0xB07B63C711F0F9BA),
    (1, 12, 0xB44303E489E27E15),
    (1, 15, 0xA362247C52F76975),
    (1, 16, 0x8381704F10794F13),
    (1, 31, 0x30C494E3D8EA5C92),
    (1, 32, 0xE73ACCC75E541B60),
    (1, 33, 0x0FD4B34807971DA4),
    (1, 40, 0x02B36B2A4A9C196A),
    (1, 63, 0x09ABC95B9A7FA569),
    (1, 64, 0x166DFDFDB0C6703E),
    (1, 65, 0xBA4C674AD6C934A1),
    (1, 100, 0xC55E58FF8694359C),
    (2864434397, 0, 0x5899693D2997DB4E),
    (2864434397, 1, 0x38009B429145E454),
    (2864434397, 2, 0x736559ED3EB22D95),
    (2864434397, 3, 0x1DF6BE04ACFA10AF),
    (2864434397, 4, 0x91AB6B8CF7E05252),
    (2864434397, 5, 0x69C81108468EB6DD),
    (2864434397, 7, 0xBC91F6D177EC620A),
    (2864434397, 8, 0xB48395B1431DE28F),
    (2864434397, 9, 0x03F3ACDD8210F384),
    (2864434397, 12, 0x1E7A17E675603848),
    (2864434397, 15, 0xD063E8606CB7369E),
    (2864434397, 16, 0xC608D1319C228127),
    (2864434397, 31, 0x1A8B543A8F5EE113),
    (2864434397, 32, 0xF8C24275419D6740),
    (2864434397, 33, 0x109905039835A870),
    (2864434397, 40, 0x74D36272499D1A15),
    (2864434397, 63, 0x58D7443CA572E79B),
    (2864434397, 64, 0xC45B483F4E895DFA),
    (2864434397, 65, 0xDF4F9A549E76E7EA),
    (2864434397, 100, 0x388BFCE7FEFF0E72),
];

// The pattern: 11, and 37 more each time, modulo 256.
fn write_pattern(bytes: &mut [u8]) {
    let mut next: u8 = 11;
    for byte in bytes {
        *byte = next;
        next = next.wrapping_add(37);
    }
}

// Writes bytes in pieces.
fn write_pieces(hasher: &mut XxHash64, bytes: &[u8], piece: usize) {
    let mut rest = bytes;
    for _ in 0..bytes.len() / piece.max(1) {
        let (part, after) = rest.split_at(piece.min(rest.len()));
        hasher.write(part);
        rest = after;
    }
    hasher.write(rest);
}

// The digest of bytes that are written in pieces.
fn digest(seed: u64, bytes: &[u8], piece: usize) -> u64 {
    let mut hasher = XxHash64::with_seed(seed);
    write_pieces(&mut hasher, bytes, piece);
    hasher.finish()
}

#[test]
fn digests_agree_however_cut(rt: HostRuntime) {
    let mut bytes = [0; 100];
    write_pattern(&mut bytes);
    for (seed, len, want) in VALUES {
        for piece in [1, 5, 31, 32, 33, 100] {
            assert!(rt; digest(seed, &bytes[..len.min(100)], piece) == want);
        }
    }
}

#[test]
fn digests_agree_with_the_last_byte_elsewhere(rt: HostRuntime) {
    let mut bytes = [0; 100];
    write_pattern(&mut bytes);
    for (seed, len, want) in VALUES {
        if let Some((last, front)) = bytes[..len.min(100)].split_last() {
            assert!(rt; digest_with_last(seed, front, *last) == want);
        }
    }
}

#[test]
fn more_is_written_after_a_digest(rt: HostRuntime) {
    let mut hasher = XxHash64::with_seed(0);
    assert!(rt; hasher.finish() == 0xEF46_DB37_51D8_E999);
    hasher.write(b"a");
    assert!(rt; hasher.finish() == 0xD24E_C4F1_A98C_6E5B);
    hasher.write(b"bc");
    assert!(rt; hasher.finish() == 0x44BC_2CF5_AD77_0999);
}
