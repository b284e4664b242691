//! Hashes against other implementations; docs/formats.md says which.
use ks_hash::{Constant, Hash128, Murmur3, murmur2, partition_of};
use std::process::Abort;

// Of the first 0, 1, 2 .. bytes of the list whose byte i is (37 * i + 11) % 256: Murmur2 and MurmurHash3.
const HASHES: &[(u32, u128)] = &[
    (0x106e_08d9, 0x00000000_00000000_00000000_00000000),
    (0x14a1_b3bb, 0x932fc7cc_e617f1e7_7a434b81_6c4508dc),
    (0x62dd_e1df, 0xcff7e5ae_5471b39d_8549c3b2_77c47536),
    (0x0111_cda7, 0x6afac0b8_de81a4b1_0cdcf4fb_816ab243),
    (0x1828_af38, 0xd3a4eed1_b81f9f72_8f4cf22a_d9a420cd),
    (0x4bbd_c20b, 0xb0330f40_087f990b_ad93f975_9963f50b),
    (0xbb12_99db, 0x32d1f10b_04077a12_4b5791ad_3829937e),
    (0x7830_e614, 0x8340cc68_6662983b_a08f38df_aa7ff6f9),
    (0xb4d5_1caa, 0xf0b14400_7f89ced7_d0222183_2d7af9a1),
    (0xa0a5_3bf7, 0xdbb3088e_aec8a0b1_cbde2418_2efe09a9),
    (0x769a_8b08, 0x7fc82ef8_fd4f371e_7a1ac716_596298b0),
    (0x18b2_7e7e, 0xce105a4d_0920d564_c5c7129b_727fc1d6),
    (0x2778_1138, 0x11eea59f_afc3bbb8_de304d58_9b0ddbf8),
    (0xb850_2063, 0x3c0bc0c7_790cc4e7_f34ba40d_12f9b27e),
    (0x94d2_2dc3, 0x4af05278_beeea171_27302e3c_ea75fb09),
    (0x79e9_d8d1, 0x2906f047_b67f83ff_49ca338f_e7701fac),
    (0xb74c_f9f3, 0xda9c6658_0c5ef0fb_885aae87_bb6c5ff7),
    (0x3191_4ce1, 0x78b8ee9a_775e07d1_e3679030_1698fce0),
    (0x9dee_9310, 0x5022ece9_b605f7d8_16d1b21e_ec8d67ac),
    (0xc613_7afb, 0x40591a63_45e2fd5e_3d2b31d6_43027caf),
    (0xf8e9_33af, 0xf85aeb21_888559f3_a65eec4a_b46824ee),
    (0x9505_13db, 0x2c128c13_418db6f3_93818c98_df190fa8),
    (0xd277_e9f8, 0xc0ffc338_9f035072_6dfadfae_c1dcf534),
    (0x5ce7_0616, 0x01b7d4fb_84dc53aa_5ad5c324_b9edfa99),
    (0xaf59_f3d6, 0x8372e2fe_eb61eb1c_e8f405aa_f3f01b03),
    (0x868d_c7d8, 0xed9e2943_729d5da2_704bb843_bd5ff913),
    (0xb1a8_4e27, 0x9fcd422e_337cdec4_628fa90e_86818db5),
    (0x90c5_0bd6, 0x454a6a12_02a0fd74_e3a5ff03_98ea8b76),
    (0xfa5b_70c5, 0xc2ea419f_1d4c02de_82b2e058_cfa3ecda),
    (0xa43d_a90f, 0x2ab2e542_5a3cf241_bef6e3ba_00dbfc06),
    (0x5d41_e9e2, 0xfde53095_5c73468b_3e2a6a48_3ba0dd7c),
    (0xa71a_73ff, 0xb1ca061e_d4c5532f_cb692648_9e7b3763),
];

fn hashed<H: Hash128>(bytes: &[u8]) -> u128 {
    H::hash(bytes)
}

fn expect_number<R: Abort>(rt: &R, found: u128, expected: u128) {
    assert_eq!(rt; found, expected);
}

fn expect_hashes<R: Abort>(rt: &R, bytes: &[u8], short: u32, long: u128) {
    expect_number(rt, u128::from(murmur2(bytes)), u128::from(short));
    expect_number(rt, hashed::<Murmur3>(bytes), long);
    expect_number(rt, hashed::<Constant>(bytes), 0);
}

// The byte of the list that follows so many.
fn byte_at(length: usize) -> u8 {
    ((37 * (length % 256) + 11) % 256) as u8
}

#[test]
fn every_tail(rt: HostRuntime) {
    let mut bytes = Vec::new(rt.alloc());
    for (short, long) in HASHES {
        expect_hashes(&rt, &bytes, *short, *long);
        bytes.push(byte_at(bytes.len())).expect(&rt, "memory");
    }
}

/// Keys with their Murmur2, as a signed number, and their partition among four.
const KEYS: &[(&str, i32, u8)] = &[
    ("21", -973_932_308, 0),
    ("foobar", -790_332_482, 2),
    ("abc", 479_470_107, 3),
    ("a-little-bit-long-string", -985_981_536, 0),
    ("a-little-bit-longer-string", -1_486_304_829, 3),
    (
        "lkjh234lh9fiuh90y23oiuhsafujhadof229phr9h19h89h8",
        -58_897_971,
        1,
    ),
];

fn expect_key<R: Abort>(rt: &R, key: &[u8], signed: i32, partition: u8) {
    expect_number(
        rt,
        u128::from(murmur2(key)),
        u128::from(signed.cast_unsigned()),
    );
    expect_number(rt, u128::from(partition_of(key, 4)), u128::from(partition));
    expect_number(rt, u128::from(partition_of(key, 1)), 0);
}

#[test]
fn known_keys(rt: HostRuntime) {
    for (key, signed, partition) in KEYS {
        expect_key(&rt, key.as_bytes(), *signed, *partition);
    }
}
