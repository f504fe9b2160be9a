//! Powers of ten: those that a float holds, and those from 10 ^ -342 to 10 ^ 308, each cut to its
//! 64 leading bits.

ghost use Rattle.std.specs.Prelude.{◌≡◌, ◌<◌, ◌≤◌};
ghost use Rattle.digit_floats.specs.Exact.{IsTenTo};
ghost use Rattle.digit_floats.specs.Near.{IsRow, power_scale};

static TENS_F64: [f64; 23] = [
    1e0, 1e1, 1e2, 1e3, 1e4, 1e5, 1e6, 1e7, 1e8, 1e9, 1e10, 1e11, 1e12, 1e13, 1e14, 1e15, 1e16,
    1e17, 1e18, 1e19, 1e20, 1e21, 1e22,
];

static TENS_F32: [f32; 11] = [1e0, 1e1, 1e2, 1e3, 1e4, 1e5, 1e6, 1e7, 1e8, 1e9, 1e10];

/// A power of ten that an `f64` holds.
pub fn ten_to_f64(k: u64) -> f64
    requires { k ≤ 22 }
    ensures { IsTenTo k result }
{
    TENS_F64[k as usize]
}

/// A power of ten that an `f32` holds.
pub fn ten_to_f32(k: u64) -> f32
    requires { k ≤ 10 }
    ensures { IsTenTo k result }
{
    TENS_F32[k as usize]
}

/// How many powers there are with their leading bits.
pub const POWERS: u64 = 651;

/// Which of them is 1: the first is 10 to minus this.
pub const POWER_OF_ONE: u64 = 342;

/// How much more a scale is than the power of two that it says, so that none is below 0.
pub const SCALE_BIAS: u64 = 1200;

/// The 64 leading bits of 10 ^ (power - 342).
#[inline(always)]
pub fn row(power: u64) -> u64
    requires { power < 651 }
    ensures { IsRow power result }
{
    ROWS[power as usize]
}

/// `row(power) * 2 ^ (result - 1200)` is 10 ^ (power - 342), or just below it.
#[inline(always)]
pub fn scale(power: u64) -> u64
    requires { power < 651 }
    ensures { result ≡ power_scale power }
{
    (power * 217706 + 58980) / 65536
}

/// The powers from 10 ^ -342 to 10 ^ 309.
#[rattlefmt::skip]
static ROWS: [u64; 652] = [
    0xeef4_53d6_923b_d65a, 0x9558_b466_1b65_65f8, 0xbaae_e17f_a23e_bf76, 0xe95a_99df_8ace_6f53,
    0x91d8_a02b_b6c1_0594, 0xb64e_c836_a471_46f9, 0xe3e2_7a44_4d8d_98b7, 0x8e6d_8c6a_b078_7f72,
    0xb208_ef85_5c96_9f4f, 0xde8b_2b66_b3bc_4723, 0x8b16_fb20_3055_ac76, 0xaddc_b9e8_3c6b_1793,
    0xd953_e862_4b85_dd78, 0x87d4_713d_6f33_aa6b, 0xa9c9_8d8c_cb00_9506, 0xd43b_f0ef_fdc0_ba48,
    0x84a5_7695_fe98_746d, 0xa5ce_d43b_7e3e_9188, 0xcf42_894a_5dce_35ea, 0x8189_95ce_7aa0_e1b2,
    0xa1eb_fb42_1949_1a1f, 0xca66_fa12_9f9b_60a6, 0xfd00_b897_4782_38d0, 0x9e20_735e_8cb1_6382,
    0xc5a8_9036_2fdd_bc62, 0xf712_b443_bbd5_2b7b, 0x9a6b_b0aa_5565_3b2d, 0xc106_9cd4_eabe_89f8,
    0xf148_440a_256e_2c76, 0x96cd_2a86_5764_dbca, 0xbc80_7527_ed3e_12bc, 0xeba0_9271_e88d_976b,
    0x9344_5b87_3158_7ea3, 0xb815_7268_fdae_9e4c, 0xe61a_cf03_3d1a_45df, 0x8fd0_c162_0630_6bab,
    0xb3c4_f1ba_87bc_8696, 0xe0b6_2e29_29ab_a83c, 0x8c71_dcd9_ba0b_4925, 0xaf8e_5410_288e_1b6f,
    0xdb71_e914_32b1_a24a, 0x8927_31ac_9faf_056e, 0xab70_fe17_c79a_c6ca, 0xd64d_3d9d_b981_787d,
    0x85f0_4682_93f0_eb4e, 0xa76c_5823_38ed_2621, 0xd147_6e2c_0728_6faa, 0x82cc_a4db_8479_45ca,
    0xa37f_ce12_6597_973c, 0xcc5f_c196_fefd_7d0c, 0xff77_b1fc_bebc_dc4f, 0x9faa_cf3d_f736_09b1,
    0xc795_830d_7503_8c1d, 0xf97a_e3d0_d244_6f25, 0x9bec_ce62_836a_c577, 0xc2e8_01fb_2445_76d5,
    0xf3a2_0279_ed56_d48a, 0x9845_418c_3456_44d6, 0xbe56_91ef_416b_d60c, 0xedec_366b_11c6_cb8f,
    0x94b3_a202_eb1c_3f39, 0xb9e0_8a83_a5e3_4f07, 0xe858_ad24_8f5c_22c9, 0x9137_6c36_d999_95be,
    0xb585_4744_8fff_fb2d, 0xe2e6_9915_b3ff_f9f9, 0x8dd0_1fad_907f_fc3b, 0xb144_2798_f49f_fb4a,
    0xdd95_317f_31c7_fa1d, 0x8a7d_3eef_7f1c_fc52, 0xad1c_8eab_5ee4_3b66, 0xd863_b256_369d_4a40,
    0x873e_4f75_e222_4e68, 0xa90d_e353_5aaa_e202, 0xd351_5c28_3155_9a83, 0x8412_d999_1ed5_8091,
    0xa517_8fff_668a_e0b6, 0xce5d_73ff_402d_98e3, 0x80fa_687f_881c_7f8e, 0xa139_029f_6a23_9f72,
    0xc987_4347_44ac_874e, 0xfbe9_1419_15d7_a922, 0x9d71_ac8f_ada6_c9b5, 0xc4ce_17b3_9910_7c22,
    0xf601_9da0_7f54_9b2b, 0x99c1_0284_4f94_e0fb, 0xc031_4325_637a_1939, 0xf03d_93ee_bc58_9f88,
    0x9626_7c75_35b7_63b5, 0xbbb0_1b92_8325_3ca2, 0xea9c_2277_23ee_8bcb, 0x92a1_958a_7675_175f,
    0xb749_faed_1412_5d36, 0xe51c_79a8_5916_f484, 0x8f31_cc09_37ae_58d2, 0xb2fe_3f0b_8599_ef07,
    0xdfbd_cece_6700_6ac9, 0x8bd6_a141_0060_42bd, 0xaecc_4991_4078_536d, 0xda7f_5bf5_9096_6848,
    0x888f_9979_7a5e_012d, 0xaab3_7fd7_d8f5_8178, 0xd560_5fcd_cf32_e1d6, 0x855c_3be0_a17f_cd26,
    0xa6b3_4ad8_c9df_c06f, 0xd060_1d8e_fc57_b08b, 0x823c_1279_5db6_ce57, 0xa2cb_1717_b524_81ed,
    0xcb7d_dcdd_a26d_a268, 0xfe5d_5415_0b09_0b02, 0x9efa_548d_26e5_a6e1, 0xc6b8_e9b0_709f_109a,
    0xf867_241c_8cc6_d4c0, 0x9b40_7691_d7fc_44f8, 0xc210_9436_4dfb_5636, 0xf294_b943_e17a_2bc4,
    0x979c_f3ca_6cec_5b5a, 0xbd84_30bd_0827_7231, 0xece5_3cec_4a31_4ebd, 0x940f_4613_ae5e_d136,
    0xb913_1798_99f6_8584, 0xe757_dd7e_c074_26e5, 0x9096_ea6f_3848_984f, 0xb4bc_a50b_065a_be63,
    0xe1eb_ce4d_c7f1_6dfb, 0x8d33_60f0_9cf6_e4bd, 0xb080_392c_c434_9dec, 0xdca0_4777_f541_c567,
    0x89e4_2caa_f949_1b60, 0xac5d_37d5_b79b_6239, 0xd774_85cb_2582_3ac7, 0x86a8_d39e_f771_64bc,
    0xa853_0886_b54d_bdeb, 0xd267_caa8_62a1_2d66, 0x8380_dea9_3da4_bc60, 0xa461_1653_8d0d_eb78,
    0xcd79_5be8_7051_6656, 0x806b_d971_4632_dff6, 0xa086_cfcd_97bf_97f3, 0xc8a8_83c0_fdaf_7df0,
    0xfad2_a4b1_3d1b_5d6c, 0x9cc3_a6ee_c631_1a63, 0xc3f4_90aa_77bd_60fc, 0xf4f1_b4d5_15ac_b93b,
    0x9917_1105_2d8b_f3c5, 0xbf5c_d546_78ee_f0b6, 0xef34_0a98_172a_ace4, 0x9580_869f_0e7a_ac0e,
    0xbae0_a846_d219_5712, 0xe998_d258_869f_acd7, 0x91ff_8377_5423_cc06, 0xb67f_6455_292c_bf08,
    0xe41f_3d6a_7377_eeca, 0x8e93_8662_882a_f53e, 0xb238_67fb_2a35_b28d, 0xdec6_81f9_f4c3_1f31,
    0x8b3c_113c_38f9_f37e, 0xae0b_158b_4738_705e, 0xd98d_daee_1906_8c76, 0x87f8_a8d4_cfa4_17c9,
    0xa9f6_d30a_038d_1dbc, 0xd474_87cc_8470_652b, 0x84c8_d4df_d2c6_3f3b, 0xa5fb_0a17_c777_cf09,
    0xcf79_cc9d_b955_c2cc, 0x81ac_1fe2_93d5_99bf, 0xa217_27db_38cb_002f, 0xca9c_f1d2_06fd_c03b,
    0xfd44_2e46_88bd_304a, 0x9e4a_9cec_1576_3e2e, 0xc5dd_4427_1ad3_cdba, 0xf754_9530_e188_c128,
    0x9a94_dd3e_8cf5_78b9, 0xc13a_148e_3032_d6e7, 0xf188_99b1_bc3f_8ca1, 0x96f5_600f_15a7_b7e5,
    0xbcb2_b812_db11_a5de, 0xebdf_6617_91d6_0f56, 0x936b_9fce_bb25_c995, 0xb846_87c2_69ef_3bfb,
    0xe658_29b3_046b_0afa, 0x8ff7_1a0f_e2c2_e6dc, 0xb3f4_e093_db73_a093, 0xe0f2_18b8_d250_88b8,
    0x8c97_4f73_8372_5573, 0xafbd_2350_644e_eacf, 0xdbac_6c24_7d62_a583, 0x894b_c396_ce5d_a772,
    0xab9e_b47c_81f5_114f, 0xd686_619b_a272_55a2, 0x8613_fd01_4587_7585, 0xa798_fc41_96e9_52e7,
    0xd17f_3b51_fca3_a7a0, 0x82ef_8513_3de6_48c4, 0xa3ab_6658_0d5f_daf5, 0xcc96_3fee_10b7_d1b3,
    0xffbb_cfe9_94e5_c61f, 0x9fd5_61f1_fd0f_9bd3, 0xc7ca_ba6e_7c53_82c8, 0xf9bd_690a_1b68_637b,
    0x9c16_61a6_5121_3e2d, 0xc31b_fa0f_e569_8db8, 0xf3e2_f893_dec3_f126, 0x986d_db5c_6b3a_76b7,
    0xbe89_5233_8609_1465, 0xee2b_a6c0_678b_597f, 0x94db_4838_40b7_17ef, 0xba12_1a46_50e4_ddeb,
    0xe896_a0d7_e51e_1566, 0x915e_2486_ef32_cd60, 0xb5b5_ada8_aaff_80b8, 0xe323_1912_d5bf_60e6,
    0x8df5_efab_c597_9c8f, 0xb173_6b96_b6fd_83b3, 0xddd0_467c_64bc_e4a0, 0x8aa2_2c0d_bef6_0ee4,
    0xad4a_b711_2eb3_929d, 0xd89d_64d5_7a60_7744, 0x8762_5f05_6c7c_4a8b, 0xa93a_f6c6_c79b_5d2d,
    0xd389_b478_7982_3479, 0x8436_10cb_4bf1_60cb, 0xa543_94fe_1eed_b8fe, 0xce94_7a3d_a6a9_273e,
    0x811c_cc66_8829_b887, 0xa163_ff80_2a34_26a8, 0xc9bc_ff60_34c1_3052, 0xfc2c_3f38_41f1_7c67,
    0x9d9b_a783_2936_edc0, 0xc502_9163_f384_a931, 0xf643_35bc_f065_d37d, 0x99ea_0196_163f_a42e,
    0xc064_81fb_9bcf_8d39, 0xf07d_a27a_82c3_7088, 0x964e_858c_91ba_2655, 0xbbe2_26ef_b628_afea,
    0xeada_b0ab_a3b2_dbe5, 0x92c8_ae6b_464f_c96f, 0xb77a_da06_17e3_bbcb, 0xe559_9087_9ddc_aabd,
    0x8f57_fa54_c2a9_eab6, 0xb32d_f8e9_f354_6564, 0xdff9_7724_7029_7ebd, 0x8bfb_ea76_c619_ef36,
    0xaefa_e514_77a0_6b03, 0xdab9_9e59_9588_85c4, 0x88b4_02f7_fd75_539b, 0xaae1_03b5_fcd2_a881,
    0xd599_44a3_7c07_52a2, 0x857f_cae6_2d84_93a5, 0xa6df_bd9f_b8e5_b88e, 0xd097_ad07_a71f_26b2,
    0x825e_cc24_c873_782f, 0xa2f6_7f2d_fa90_563b, 0xcbb4_1ef9_7934_6bca, 0xfea1_26b7_d781_86bc,
    0x9f24_b832_e6b0_f436, 0xc6ed_e63f_a05d_3143, 0xf8a9_5fcf_8874_7d94, 0x9b69_dbe1_b548_ce7c,
    0xc244_52da_229b_021b, 0xf2d5_6790_ab41_c2a2, 0x97c5_60ba_6b09_19a5, 0xbdb6_b8e9_05cb_600f,
    0xed24_6723_473e_3813, 0x9436_c076_0c86_e30b, 0xb944_7093_8fa8_9bce, 0xe795_8cb8_7392_c2c2,
    0x90bd_77f3_483b_b9b9, 0xb4ec_d5f0_1a4a_a828, 0xe228_0b6c_20dd_5232, 0x8d59_0723_948a_535f,
    0xb0af_48ec_79ac_e837, 0xdcdb_1b27_9818_2244, 0x8a08_f0f8_bf0f_156b, 0xac8b_2d36_eed2_dac5,
    0xd7ad_f884_aa87_9177, 0x86cc_bb52_ea94_baea, 0xa87f_ea27_a539_e9a5, 0xd29f_e4b1_8e88_640e,
    0x83a3_eeee_f915_3e89, 0xa48c_eaaa_b75a_8e2b, 0xcdb0_2555_6531_31b6, 0x808e_1755_5f3e_bf11,
    0xa0b1_9d2a_b70e_6ed6, 0xc8de_0475_64d2_0a8b, 0xfb15_8592_be06_8d2e, 0x9ced_737b_b6c4_183d,
    0xc428_d05a_a475_1e4c, 0xf533_0471_4d92_65df, 0x993f_e2c6_d07b_7fab, 0xbf8f_db78_849a_5f96,
    0xef73_d256_a5c0_f77c, 0x95a8_6376_2798_9aad, 0xbb12_7c53_b17e_c159, 0xe9d7_1b68_9dde_71af,
    0x9226_7121_62ab_070d, 0xb6b0_0d69_bb55_c8d1, 0xe45c_10c4_2a2b_3b05, 0x8eb9_8a7a_9a5b_04e3,
    0xb267_ed19_40f1_c61c, 0xdf01_e85f_912e_37a3, 0x8b61_313b_babc_e2c6, 0xae39_7d8a_a96c_1b77,
    0xd9c7_dced_53c7_2255, 0x881c_ea14_545c_7575, 0xaa24_2499_6973_92d2, 0xd4ad_2dbf_c3d0_7787,
    0x84ec_3c97_da62_4ab4, 0xa627_4bbd_d0fa_dd61, 0xcfb1_1ead_4539_94ba, 0x81ce_b32c_4b43_fcf4,
    0xa242_5ff7_5e14_fc31, 0xcad2_f7f5_359a_3b3e, 0xfd87_b5f2_8300_ca0d, 0x9e74_d1b7_91e0_7e48,
    0xc612_0625_7658_9dda, 0xf796_87ae_d3ee_c551, 0x9abe_14cd_4475_3b52, 0xc16d_9a00_9592_8a27,
    0xf1c9_0080_baf7_2cb1, 0x971d_a050_74da_7bee, 0xbce5_0864_9211_1aea, 0xec1e_4a7d_b695_61a5,
    0x9392_ee8e_921d_5d07, 0xb877_aa32_36a4_b449, 0xe695_94be_c44d_e15b, 0x901d_7cf7_3ab0_acd9,
    0xb424_dc35_095c_d80f, 0xe12e_1342_4bb4_0e13, 0x8cbc_cc09_6f50_88cb, 0xafeb_ff0b_cb24_aafe,
    0xdbe6_fece_bded_d5be, 0x8970_5f41_36b4_a597, 0xabcc_7711_8461_cefc, 0xd6bf_94d5_e57a_42bc,
    0x8637_bd05_af6c_69b5, 0xa7c5_ac47_1b47_8423, 0xd1b7_1758_e219_652b, 0x8312_6e97_8d4f_df3b,
    0xa3d7_0a3d_70a3_d70a, 0xcccc_cccc_cccc_cccc, 0x8000_0000_0000_0000, 0xa000_0000_0000_0000,
    0xc800_0000_0000_0000, 0xfa00_0000_0000_0000, 0x9c40_0000_0000_0000, 0xc350_0000_0000_0000,
    0xf424_0000_0000_0000, 0x9896_8000_0000_0000, 0xbebc_2000_0000_0000, 0xee6b_2800_0000_0000,
    0x9502_f900_0000_0000, 0xba43_b740_0000_0000, 0xe8d4_a510_0000_0000, 0x9184_e72a_0000_0000,
    0xb5e6_20f4_8000_0000, 0xe35f_a931_a000_0000, 0x8e1b_c9bf_0400_0000, 0xb1a2_bc2e_c500_0000,
    0xde0b_6b3a_7640_0000, 0x8ac7_2304_89e8_0000, 0xad78_ebc5_ac62_0000, 0xd8d7_26b7_177a_8000,
    0x8786_7832_6eac_9000, 0xa968_163f_0a57_b400, 0xd3c2_1bce_cced_a100, 0x8459_5161_4014_84a0,
    0xa56f_a5b9_9019_a5c8, 0xcecb_8f27_f420_0f3a, 0x813f_3978_f894_0984, 0xa18f_07d7_36b9_0be5,
    0xc9f2_c9cd_0467_4ede, 0xfc6f_7c40_4581_2296, 0x9dc5_ada8_2b70_b59d, 0xc537_1912_364c_e305,
    0xf684_df56_c3e0_1bc6, 0x9a13_0b96_3a6c_115c, 0xc097_ce7b_c907_15b3, 0xf0bd_c21a_bb48_db20,
    0x9676_9950_b50d_88f4, 0xbc14_3fa4_e250_eb31, 0xeb19_4f8e_1ae5_25fd, 0x92ef_d1b8_d0cf_37be,
    0xb7ab_c627_0503_05ad, 0xe596_b7b0_c643_c719, 0x8f7e_32ce_7bea_5c6f, 0xb35d_bf82_1ae4_f38b,
    0xe035_2f62_a19e_306e, 0x8c21_3d9d_a502_de45, 0xaf29_8d05_0e43_95d6, 0xdaf3_f046_51d4_7b4c,
    0x88d8_762b_f324_cd0f, 0xab0e_93b6_efee_0053, 0xd5d2_38a4_abe9_8068, 0x85a3_6366_eb71_f041,
    0xa70c_3c40_a64e_6c51, 0xd0cf_4b50_cfe2_0765, 0x8281_8f12_81ed_449f, 0xa321_f2d7_2268_95c7,
    0xcbea_6f8c_eb02_bb39, 0xfee5_0b70_25c3_6a08, 0x9f4f_2726_179a_2245, 0xc722_f0ef_9d80_aad6,
    0xf8eb_ad2b_84e0_d58b, 0x9b93_4c3b_330c_8577, 0xc278_1f49_ffcf_a6d5, 0xf316_271c_7fc3_908a,
    0x97ed_d871_cfda_3a56, 0xbde9_4e8e_43d0_c8ec, 0xed63_a231_d4c4_fb27, 0x945e_455f_24fb_1cf8,
    0xb975_d6b6_ee39_e436, 0xe7d3_4c64_a9c8_5d44, 0x90e4_0fbe_ea1d_3a4a, 0xb51d_13ae_a4a4_88dd,
    0xe264_589a_4dcd_ab14, 0x8d7e_b760_70a0_8aec, 0xb0de_6538_8cc8_ada8, 0xdd15_fe86_affa_d912,
    0x8a2d_bf14_2dfc_c7ab, 0xacb9_2ed9_397b_f996, 0xd7e7_7a8f_87da_f7fb, 0x86f0_ac99_b4e8_dafd,
    0xa8ac_d7c0_2223_11bc, 0xd2d8_0db0_2aab_d62b, 0x83c7_088e_1aab_65db, 0xa4b8_cab1_a156_3f52,
    0xcde6_fd5e_09ab_cf26, 0x80b0_5e5a_c60b_6178, 0xa0dc_75f1_778e_39d6, 0xc913_936d_d571_c84c,
    0xfb58_7849_4ace_3a5f, 0x9d17_4b2d_cec0_e47b, 0xc45d_1df9_4271_1d9a, 0xf574_6577_930d_6500,
    0x9968_bf6a_bbe8_5f20, 0xbfc2_ef45_6ae2_76e8, 0xefb3_ab16_c59b_14a2, 0x95d0_4aee_3b80_ece5,
    0xbb44_5da9_ca61_281f, 0xea15_7514_3cf9_7226, 0x924d_692c_a61b_e758, 0xb6e0_c377_cfa2_e12e,
    0xe498_f455_c38b_997a, 0x8edf_98b5_9a37_3fec, 0xb297_7ee3_00c5_0fe7, 0xdf3d_5e9b_c0f6_53e1,
    0x8b86_5b21_5899_f46c, 0xae67_f1e9_aec0_7187, 0xda01_ee64_1a70_8de9, 0x8841_34fe_9086_58b2,
    0xaa51_823e_34a7_eede, 0xd4e5_e2cd_c1d1_ea96, 0x850f_adc0_9923_329e, 0xa653_9930_bf6b_ff45,
    0xcfe8_7f7c_ef46_ff16, 0x81f1_4fae_158c_5f6e, 0xa26d_a399_9aef_7749, 0xcb09_0c80_01ab_551c,
    0xfdcb_4fa0_0216_2a63, 0x9e9f_11c4_014d_da7e, 0xc646_d635_01a1_511d, 0xf7d8_8bc2_4209_a565,
    0x9ae7_5759_6946_075f, 0xc1a1_2d2f_c397_8937, 0xf209_787b_b47d_6b84, 0x9745_eb4d_50ce_6332,
    0xbd17_6620_a501_fbff, 0xec5d_3fa8_ce42_7aff, 0x93ba_47c9_80e9_8cdf, 0xb8a8_d9bb_e123_f017,
    0xe6d3_102a_d96c_ec1d, 0x9043_ea1a_c7e4_1392, 0xb454_e4a1_79dd_1877, 0xe16a_1dc9_d854_5e94,
    0x8ce2_529e_2734_bb1d, 0xb01a_e745_b101_e9e4, 0xdc21_a117_1d42_645d, 0x8995_04ae_7249_7eba,
    0xabfa_45da_0edb_de69, 0xd6f8_d750_9292_d603, 0x865b_8692_5b9b_c5c2, 0xa7f2_6836_f282_b732,
    0xd1ef_0244_af23_64ff, 0x8335_616a_ed76_1f1f, 0xa402_b9c5_a8d3_a6e7, 0xcd03_6837_1308_90a1,
    0x8022_2122_6be5_5a64, 0xa02a_a96b_06de_b0fd, 0xc835_53c5_c896_5d3d, 0xfa42_a8b7_3abb_f48c,
    0x9c69_a972_84b5_78d7, 0xc384_13cf_25e2_d70d, 0xf465_18c2_ef5b_8cd1, 0x98bf_2f79_d599_3802,
    0xbeee_fb58_4aff_8603, 0xeeaa_ba2e_5dbf_6784, 0x952a_b45c_fa97_a0b2, 0xba75_6174_393d_88df,
    0xe912_b9d1_478c_eb17, 0x91ab_b422_ccb8_12ee, 0xb616_a12b_7fe6_17aa, 0xe39c_4976_5fdf_9d94,
    0x8e41_ade9_fbeb_c27d, 0xb1d2_1964_7ae6_b31c, 0xde46_9fbd_99a0_5fe3, 0x8aec_23d6_8004_3bee,
    0xada7_2ccc_2005_4ae9, 0xd910_f7ff_2806_9da4, 0x87aa_9aff_7904_2286, 0xa995_41bf_5745_2b28,
    0xd3fa_922f_2d16_75f2, 0x847c_9b5d_7c2e_09b7, 0xa59b_c234_db39_8c25, 0xcf02_b2c2_1207_ef2e,
    0x8161_afb9_4b44_f57d, 0xa1ba_1ba7_9e16_32dc, 0xca28_a291_859b_bf93, 0xfcb2_cb35_e702_af78,
    0x9def_bf01_b061_adab, 0xc56b_aec2_1c7a_1916, 0xf6c6_9a72_a398_9f5b, 0x9a3c_2087_a63f_6399,
    0xc0cb_28a9_8fcf_3c7f, 0xf0fd_f2d3_f3c3_0b9f, 0x969e_b7c4_7859_e743, 0xbc46_65b5_9670_6114,
    0xeb57_ff22_fc0c_7959, 0x9316_ff75_dd87_cbd8, 0xb7dc_bf53_54e9_bece, 0xe5d3_ef28_2a24_2e81,
    0x8fa4_7579_1a56_9d10, 0xb38d_92d7_60ec_4455, 0xe070_f78d_3927_556a, 0x8c46_9ab8_43b8_9562,
    0xaf58_4166_54a6_babb, 0xdb2e_51bf_e9d0_696a, 0x88fc_f317_f222_41e2, 0xab3c_2fdd_eeaa_d25a,
    0xd60b_3bd5_6a55_86f1, 0x85c7_0565_6275_7456, 0xa738_c6be_bb12_d16c, 0xd106_f86e_69d7_85c7,
    0x82a4_5b45_0226_b39c, 0xa34d_7216_42b0_6084, 0xcc20_ce9b_d35c_78a5, 0xff29_0242_c833_96ce,
    0x9f79_a169_bd20_3e41, 0xc758_09c4_2c68_4dd1, 0xf92e_0c35_3782_6145, 0x9bbc_c7a1_42b1_7ccb,
    0xc2ab_f989_935d_dbfe, 0xf356_f7eb_f835_52fe, 0x9816_5af3_7b21_53de, 0xbe1b_f1b0_59e9_a8d6,
    0xeda2_ee1c_7064_130c, 0x9485_d4d1_c63e_8be7, 0xb9a7_4a06_37ce_2ee1, 0xe811_1c87_c5c1_ba99,
    0x910a_b1d4_db99_14a0, 0xb54d_5e4a_127f_59c8, 0xe2a0_b5dc_971f_303a, 0x8da4_71a9_de73_7e24,
    0xb10d_8e14_5610_5dad, 0xdd50_f199_6b94_7518, 0x8a52_96ff_e33c_c92f, 0xace7_3cbf_dc0b_fb7b,
    0xd821_0bef_d30e_fa5a, 0x8714_a775_e3e9_5c78, 0xa8d9_d153_5ce3_b396, 0xd310_45a8_341c_a07c,
    0x83ea_2b89_2091_e44d, 0xa4e4_b66b_68b6_5d60, 0xce1d_e406_42e3_f4b9, 0x80d2_ae83_e9ce_78f3,
    0xa107_5a24_e442_1730, 0xc949_30ae_1d52_9cfc, 0xfb9b_7cd9_a4a7_443c, 0x9d41_2e08_06e8_8aa5,
    0xc491_798a_08a2_ad4e, 0xf5b5_d7ec_8acb_58a2, 0x9991_a6f3_d6bf_1765, 0xbff6_10b0_cc6e_dd3f,
    0xeff3_94dc_ff8a_948e, 0x95f8_3d0a_1fb6_9cd9, 0xbb76_4c4c_a7a4_440f, 0xea53_df5f_d18d_5513,
    0x9274_6b9b_e2f8_552c, 0xb711_8682_dbb6_6a77, 0xe4d5_e823_92a4_0515, 0x8f05_b116_3ba6_832d,
    0xb2c7_1d5b_ca90_23f8, 0xdf78_e4b2_bd34_2cf6, 0x8bab_8eef_b640_9c1a, 0xae96_72ab_a3d0_c320,
    0xda3c_0f56_8cc4_f3e8, 0x8865_8996_17fb_1871, 0xaa7e_ebfb_9df9_de8d, 0xd51e_a6fa_8578_5631,
    0x8533_285c_936b_35de, 0xa67f_f273_b846_0356, 0xd01f_ef10_a657_842c, 0x8213_f56a_67f6_b29b,
    0xa298_f2c5_01f4_5f42, 0xcb3f_2f76_4271_7713, 0xfe0e_fb53_d30d_d4d7, 0x9ec9_5d14_63e8_a506,
    0xc67b_b459_7ce2_ce48, 0xf81a_a16f_dc1b_81da, 0x9b10_a4e5_e991_3128, 0xc1d4_ce1f_63f5_7d72,
    0xf24a_01a7_3cf2_dccf, 0x976e_4108_8617_ca01, 0xbd49_d14a_a79d_bc82, 0xec9c_459d_5185_2ba2,
    0x93e1_ab82_52f3_3b45, 0xb8da_1662_e7b0_0a17, 0xe710_9bfb_a19c_0c9d, 0x906a_617d_4501_87e2,
    0xb484_f9dc_9641_e9da, 0xe1a6_3853_bbd2_6451, 0x8d07_e334_5563_7eb2, 0xb049_dc01_6abc_5e5f,
    0xdc5c_5301_c56b_75f7, 0x89b9_b3e1_1b63_29ba, 0xac28_20d9_623b_f429, 0xd732_290f_baca_f133,
    0x867f_59a9_d4be_d6c0, 0xa81f_3014_49ee_8c70, 0xd226_fc19_5c6a_2f8c, 0x8358_5d8f_d9c2_5db7,
    0xa42e_74f3_d032_f525, 0xcd3a_1230_c43f_b26f, 0x8044_4b5e_7aa7_cf85, 0xa055_5e36_1951_c366,
    0xc86a_b5c3_9fa6_3440, 0xfa85_6334_878f_c150, 0x9c93_5e00_d4b9_d8d2, 0xc3b8_3581_09e8_4f07,
    0xf4a6_42e1_4c62_62c8, 0x98e7_e9cc_cfbd_7dbd, 0xbf21_e440_03ac_dd2c, 0xeeea_5d50_0498_1478,
    0x9552_7a52_02df_0ccb, 0xbaa7_18e6_8396_cffd, 0xe950_df20_247c_83fd, 0x91d2_8b74_16cd_d27e,
    0xb647_2e51_1c81_471d, 0xe3d8_f9e5_63a1_98e5, 0x8e67_9c2f_5e44_ff8f, 0xb201_833b_35d6_3f73,
];
