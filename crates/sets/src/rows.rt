// The tables of the two-pin gates, as rows of 16 sets in one number. Each is a `match`, which is compiled to one fixed table.
ghost use Rattle.std.specs.Prelude.{◌≤◌};
ghost use Rattle.sets.specs.Inner.{Forwards, Backwards};

// What an and gives from the first pin, by the second; then those of the or and the exclusive-or.
pub fn forward_row(k: usize) -> u64
    ensures { Forwards k result }
{
    match k {
        0 => 0x0000_0000_0000_0000,
        1 => 0x1111_1111_1111_1110,
        2 => 0xfedc_ba98_7654_3210,
        3 => 0xffdd_bb99_7755_3310,
        4 => 0x5555_5511_5454_5410,
        5 => 0x5555_5511_5555_5510,
        6 => 0xffdd_ff99_7654_7610,
        7 => 0xffdd_ff99_7755_7710,
        8 => 0x9999_9898_9911_9810,
        9 => 0x9999_9999_9911_9910,
        10 => 0xffdd_ba98_ff55_ba10,
        11 => 0xffdd_bb99_ff55_bb10,
        12 => 0xdddd_dd99_dd55_dc10,
        13 => 0xdddd_dd99_dd55_dd10,
        14 => 0xffdd_ff99_ff55_fe10,
        15 => 0xffdd_ff99_ff55_ff10,
        _ => or_row(k),
    }
}

// What an or gives.
fn or_row(k: usize) -> u64
    requires { 16 ≤ k }
    ensures { Forwards k result }
{
    match k {
        16 => 0x0000_0000_0000_0000,
        17 => 0xfedc_ba98_7654_3210,
        18 => 0x2222_2222_2222_2220,
        19 => 0xfefe_baba_7676_3230,
        20 => 0x6666_6262_6644_6240,
        21 => 0xfefe_fafa_7654_7250,
        22 => 0x6666_6262_6666_6260,
        23 => 0xfefe_fafa_7676_7270,
        24 => 0xaaaa_aa88_a2a2_a280,
        25 => 0xfefe_ba98_f6f6_b290,
        26 => 0xaaaa_aaaa_a2a2_a2a0,
        27 => 0xfefe_baba_f6f6_b2b0,
        28 => 0xeeee_eaea_e6e6_e2c0,
        29 => 0xfefe_fafa_f6f6_f2d0,
        30 => 0xeeee_eaea_e6e6_e2e0,
        31 => 0xfefe_fafa_f6f6_f2f0,
        _ => xor_row(k),
    }
}

// What an exclusive-or gives, and what a pin of one can be, which is the same.
fn xor_row(k: usize) -> u64
    requires { 32 ≤ k }
    ensures { Forwards k result }
{
    match k {
        32 => 0x0000_0000_0000_0000,
        33 => 0xfedc_ba98_7654_3210,
        34 => 0xfdec_7564_b9a8_3120,
        35 => 0xfffc_fffc_fffc_3330,
        36 => 0xfb73_ea62_d951_c840,
        37 => 0xffff_fafa_ff55_fa50,
        38 => 0xffff_ff66_f9f9_f960,
        39 => 0xffff_fffe_fffd_fb70,
        40 => 0xf7b3_d591_e6a2_c480,
        41 => 0xffff_ff99_f6f6_f690,
        42 => 0xffff_f5f5_ffaa_f5a0,
        43 => 0xffff_fffd_fffe_f7b0,
        44 => 0xfff3_fff3_fff3_ccc0,
        45 => 0xffff_fffb_fff7_fed0,
        46 => 0xffff_fff7_fffb_fde0,
        47 => 0xffff_ffff_ffff_fff0,
        _ => 0,
    }
}

// What a pin of an and can be from what the and gives, by the other pin; then those of the or and the exclusive-or.
pub fn backward_row(k: usize) -> u64
    ensures { Backwards k result }
{
    match k {
        0 => 0x0000_0000_0000_0000,
        1 => 0xfdfd_f5f5_f9f9_f1f0,
        2 => 0x2200_2200_2200_2200,
        3 => 0xfffd_f7f5_fbf9_f3f0,
        4 => 0x6666_4400_6666_4400,
        5 => 0xffff_f5f5_ffff_f5f0,
        6 => 0x6666_6600_6666_6600,
        7 => 0xffff_f7f5_ffff_f7f0,
        8 => 0xaaaa_aaaa_8800_8800,
        9 => 0xffff_ffff_f9f9_f9f0,
        10 => 0xaaaa_aaaa_aa00_aa00,
        11 => 0xffff_ffff_fbf9_fbf0,
        12 => 0xeeee_eeaa_ee66_cc00,
        13 => 0xffff_ffff_ffff_fdf0,
        14 => 0xeeee_eeaa_ee66_ee00,
        15 => 0xffff_ffff_ffff_fff0,
        _ => or_back(k),
    }
}

// What a pin of an or can be.
fn or_back(k: usize) -> u64
    requires { 16 ≤ k }
    ensures { Backwards k result }
{
    match k {
        16 => 0x0000_0000_0000_0000,
        17 => 0x1010_1010_1010_1010,
        18 => 0xffee_ff66_ffaa_ff20,
        19 => 0xfffe_ff76_ffba_ff30,
        20 => 0x5555_4040_5555_4040,
        21 => 0x5555_5050_5555_5050,
        22 => 0xffff_ff66_ffff_ff60,
        23 => 0xffff_ff76_ffff_ff70,
        24 => 0x9999_9999_8080_8080,
        25 => 0x9999_9999_9090_9090,
        26 => 0xffff_ffff_ffaa_ffa0,
        27 => 0xffff_ffff_ffba_ffb0,
        28 => 0xdddd_d9d9_d5d5_c0c0,
        29 => 0xdddd_d9d9_d5d5_d0d0,
        30 => 0xffff_ffff_ffff_ffe0,
        31 => 0xffff_ffff_ffff_fff0,
        _ => xor_row(k),
    }
}
