// e^−u for an f64 u, worked out in whole multiples of 2^-62: a table for the whole part of u, one for its 512ths, and a short series for what is left.
#![tactic(auto)]

ghost use Rattle.std.specs.Prelude.{◌≡◌, ◌+◌, ◌*◌, ◌/◌, ◌^◌, ◌<◌, ◌≤◌, min, T, length, slice_index_or};
ghost use Rattle.std.specs.Float.{nan};
ghost use Rattle.std.specs.Float.Ieee.{le, lt};
ghost use Rattle.area.specs.Area.{written};
ghost use Rattle.ieee.specs.Floats.{zero_float};
ghost use Rattle.ieee.specs.Values.{multiple};
ghost use Rattle.exponential.specs.Exponential.{whole, fraction_table, entry_of, times, short_series, units_by, cut, exp_neg_by, exp_neg};

// e^−k for k from 0 to 5, and from 6 to 34. All of a table is written out where an entry is read, and few distances are six times the range.
const NEAR_WHOLES: [u64; 6] = [
    0x4000_0000_0000_0000,
    0x178b_5636_2cef_37c7,
    0x08a9_5551_dfc0_e5d0,
    0x032f_b619_99d6_15d9,
    0x012c_155b_8213_cf47,
    0x006e_64ff_8035_4dd8,
];

const FAR_WHOLES: [u64; 29] = [
    0x0028_9ca3_e227_a9ac,
    0x000e_f0b5_ce12_54c7,
    0x0005_7f08_4104_09eb,
    0x0002_059e_44a4_ca8b,
    0x0000_be6b_cdab_23e5,
    0x0000_460d_508e_3d9e,
    0x0000_19c5_4c3b_43bd,
    0x0000_097b_029d_cc0f,
    0x0000_037c_d8df_b603,
    0x0000_0148_75ca_227f,
    0x0000_0078_d56e_ebba,
    0x0000_002c_73c6_2eb5,
    0x0000_0010_5a62_8c6a,
    0x0000_0006_0415_bfcb,
    0x0000_0002_3690_cabe,
    0x0000_0000_d06d_8687,
    0x0000_0000_4cad_22fc,
    0x0000_0000_1c35_27e4,
    0x0000_0000_0a60_83c8,
    0x0000_0000_03d1_46f5,
    0x0000_0000_0167_852a,
    0x0000_0000_0084_4295,
    0x0000_0000_0030_a7e0,
    0x0000_0000_0011_e643,
    0x0000_0000_0006_95b8,
    0x0000_0000_0002_6c24,
    0x0000_0000_0000_e423,
    0x0000_0000_0000_53ed,
    0x0000_0000_0000_1ee0,
];

// e^−(i/512) for i from 0 to 511.
const FRACTIONS: [u64; 512] = [
    0x4000_0000_0000_0000,
    0x3fe0_07fe_aad5_5111,
    0x3fc0_1ff5_57ff_778e,
    0x3fa0_47dc_0d7b_f436,
    0x3f80_7faa_d544_49f3,
    0x3f60_c759_bd4c_0056,
    0x3f41_1ee0_d77e_a717,
    0x3f21_8638_39bd_da8d,
    0x3f01_fd57_fddf_4925,
    0x3ee2_8438_41aa_b9dd,
    0x3ec3_1ad1_26d8_13b1,
    0x3ea3_c11a_d30d_6609,
    0x3e84_770d_6fdc_f228,
    0x3e65_3ca1_2ac3_3587,
    0x3e46_11ce_3524_f53f,
    0x3e26_f68c_c44d_4a58,
    0x3e07_ead5_116b_af23,
    0x3de8_ee9f_5992_0d82,
    0x3dca_01e3_ddb2_ce30,
    0x3dab_249a_e29e_e8f9,
    0x3d8c_56bc_b103_f5ef,
    0x3d6d_9841_956a_3f9c,
    0x3d4e_e921_e032_d619,
    0x3d30_4955_e595_a330,
    0x3d11_b8d5_fd9f_7f64,
    0x3cf3_379a_8430_47f6,
    0x3cd4_c59b_d8f8_f5e0,
    0x3cb6_62d2_5f79_b5bb,
    0x3c98_0f36_7f00_00a4,
    0x3c79_cac0_a2a4_b60c,
    0x3c5b_9569_394a_3681,
    0x3c3d_6f28_b59a_7f67,
    0x3c1f_57f7_8e05_479d,
    0x3c01_4fce_3cbe_1d20,
    0x3be3_56a5_3fba_8392,
    0x3bc5_6c75_18b0_13bd,
    0x3ba7_9136_4d12_9bfb,
    0x3b89_c4e1_6612_4194,
    0x3b6c_076e_f099_a30f,
    0x3b4e_58d7_7d4b_fb66,
    0x3b30_b913_a083_4631,
    0x3b13_281b_f24e_64bf,
    0x3af5_a5e9_0e6f_4417,
    0x3ad8_3273_9459_03e9,
    0x3aba_cdb4_272e_1e6a,
    0x3a9d_77a3_6dbe_911f,
    0x3a80_303a_1286_068e,
    0x3a62_f770_c3aa_00e0,
    0x3a45_cd40_32f8_0567,
    0x3a28_b1a1_15e3_c913,
    0x3a0b_a48c_2585_5dd1,
    0x39ee_a5fa_1e97_60cc,
    0x39d1_b5e3_c175_29a0,
    0x39b4_d441_d218_fa6f,
    0x3998_010d_181a_30e0,
    0x397b_3c3e_5eab_7805,
    0x395e_85ce_7498_fb25,
    0x3941_ddb6_2c46_9974,
    0x3925_43ee_5bae_1aa7,
    0x3908_b86f_dc5d_6477,
    0x38ec_3b33_8b74_b0ff,
    0x38cf_cc32_49a4_c609,
    0x38b3_6b64_fb2d_2d38,
    0x3897_18c4_87da_6d17,
    0x387a_d449_db04_430f,
    0x385e_9ded_e38b_de39,
    0x3842_75a9_93da_1b19,
    0x3826_5b75_e1dd_c037,
    0x380a_4f4b_c709_bb9d,
    0x37ee_5124_4053_6130,
    0x37d2_60f8_4e30_a9ef,
    0x37b6_7ec0_f496_7411,
    0x379a_aa77_3af6_c403,
    0x377e_e414_2c3f_0641,
    0x3763_2b90_d6d6_5214,
    0x3747_80e6_4c9b_ad2e,
    0x372b_e40d_a2e4_501b,
    0x3710_54ff_f279_eb9c,
    0x36f4_d3b6_5798_eed8,
    0x36d9_6029_f1ee_ce6b,
    0x36bd_fa53_e498_4c4f,
    0x36a2_a22d_561f_c0a8,
    0x3687_57af_707b_6362,
    0x366c_1ad3_610b_96b0,
    0x3650_eb92_5899_3266,
    0x3635_c9e5_8b53_d027,
    0x361a_b5c6_30d0_1876,
    0x35ff_af2d_8406_1096,
    0x35e4_b614_c34f_694c,
    0x35c9_ca75_3065_ce75,
    0x35ae_ec48_1061_3770,
    0x3594_1b86_abb6_386a,
    0x3579_582a_4e34_5476,
    0x355e_a22c_4704_5086,
    0x3543_f985_e8a6_8730,
    0x3529_5e30_88f1_3d50,
    0x350e_d025_810e_f781,
    0x34f4_4f5e_2d7c_d060,
    0x34d9_dbd3_ee08_cfb4,
    0x34bf_7580_25d0_425b,
    0x34a5_1c5c_3b3e_1313,
    0x348a_d061_9809_2416,
    0x3470_9189_a932_a987,
    0x3456_5fcd_df04_84b2,
    0x343c_3b27_ad0f_a01e,
    0x3422_2390_8a2a_4c73,
    0x3408_1901_f06e_9e2e,
    0x33ee_1b75_5d38_cc26,
    0x33d4_2ae4_5125_8ee7,
    0x33ba_4748_5010_80d5,
    0x33a0_709a_e112_7f27,
    0x3386_a6d5_8e80_0baa,
    0x336c_e9f1_e5e7_af57,
    0x3353_39e9_7810_5db6,
    0x3339_96b5_d8f7_d912,
    0x3320_0050_9fd1_1775,
    0x3306_76b3_6702_a878,
    0x32ec_f9d7_cc25_1bdb,
    0x32d3_89b7_7001_68e9,
    0x32ba_264b_f68f_56b1,
    0x32a0_cf8f_06f3_e4fa,
    0x3287_857a_4b7f_b616,
    0x326e_4807_71ad_796f,
    0x3255_1730_2a20_56e9,
    0x323b_f2ee_28a2_5b0b,
    0x3222_db3b_2422_e3ef,
    0x3209_d010_d6b5_0f01,
    0x31f0_d168_fd8e_2781,
    0x31d7_df3d_5904_15d1,
    0x31be_f987_ac8b_cf8c,
    0x31a6_2041_beb7_c863,
    0x318d_5365_5936_63bd,
    0x3174_92ec_48d0_672b,
    0x315b_ded0_5d67_6d90,
    0x3143_370b_69f4_5b24,
    0x312a_9b97_4485_d22a,
    0x3112_0c6d_c63e_a876,
    0x30f9_8988_cb54_5db9,
    0x30e1_12e2_330d_9289,
    0x30c8_a873_dfc0_8035,
    0x30b0_4a37_b6d1_715e,
    0x3097_f827_a0b1_3b49,
    0x307f_b23d_88db_b801,
    0x3067_7873_5dd6_4134,
    0x304f_4ac3_112e_2bd3,
    0x3037_2926_9777_4476,
    0x301f_1397_e84a_4c85,
    0x3007_0a10_fe43_7816,
    0x2fef_0c8b_d700_ec9b,
    0x2fd7_1b02_7321_4047,
    0x2fbf_356e_d641_fa35,
    0x2fa7_5bcb_06fe_1350,
    0x2f8f_8e11_0eec_77fc,
    0x2f77_cc3a_fa9e_8a76,
    0x2f60_1642_d99e_a5fd,
    0x2f48_6c22_be6e_a2b6,
    0x2f30_cdd4_be86_5a45,
    0x2f19_3b52_f252_2d33,
    0x2f01_b497_7531_8906,
    0x2eea_399c_6575_6f16,
    0x2ed2_ca5b_e45e_fc27,
    0x2ebb_66d0_161d_f0b2,
    0x2ea4_0ef3_21cf_39fa,
    0x2e8c_c2bf_317b_7bca,
    0x2e75_822e_7215_9afc,
    0x2e5e_4d3b_1379_48b8,
    0x2e47_23df_4869_8e64,
    0x2e30_0615_468f_5a5b,
    0x2e18_f3d7_4678_0d54,
    0x2e01_ed1f_8394_0885,
    0x2dea_f1e8_3c35_3c83,
    0x2dd4_022b_b18d_b8d2,
    0x2dbd_1de4_27ae_3c31,
    0x2da6_450b_e584_c5a5,
    0x2d8f_779d_34db_262c,
    0x2d78_b592_6255_9334,
    0x2d61_fee5_bd71_39c5,
    0x2d4b_5391_9882_d25b,
    0x2d34_b390_48b5_3582,
    0x2d1e_1edc_2607_f11b,
    0x2d07_956f_8b4d_de61,
    0x2cf1_1744_d62b_b896,
    0x2cda_a456_6716_b476,
    0x2cc4_3c9e_a153_184d,
    0x2cad_e017_eaf2_d4ca,
    0x2c97_8ebc_acd4_1e84,
    0x2c81_4887_52a0_0832,
    0x2c6b_0d72_4ac9_1d94,
    0x2c54_dd78_0689_ff10,
    0x2c3e_b892_f9e3_fe01,
    0x2c28_9ebd_9b9d_b9b7,
    0x2c12_8ff2_6541_bd28,
    0x2bfc_8c2b_d31d_1d55,
    0x2be6_9364_643e_185a,
    0x2bd0_a596_9a72_b533,
    0x2bba_c2bc_fa47_6431,
    0x2ba4_ead2_0b05_a01b,
    0x2b8f_1dd0_56b2_8fff,
    0x2b79_5bb2_6a0d_a9b8,
    0x2b63_a472_d48f_551a,
    0x2b4d_f80c_2867_8fd1,
    0x2b38_5678_fa7c_91ed,
    0x2b22_bfb3_e269_731c,
    0x2b0d_33b7_7a7c_d090,
    0x2af7_b27e_5fb7_7394,
    0x2ae2_3c03_31ca_f8c9,
    0x2acc_d040_9318_7817,
    0x2ab7_6f31_28af_2d40,
    0x2aa2_18cf_9a4b_212b,
    0x2a8c_cd16_9253_d3ca,
    0x2a77_8c00_bdda_e6ba,
    0x2a62_5588_cc9a_c887,
    0x2a4d_29a9_70f5_6098,
    0x2a38_085d_5ff2_bbc8,
    0x2a22_f19f_513f_b9ac,
    0x2a0d_e569_ff2c_ba78,
    0x29f8_e3b8_26ac_4d96,
    0x29e3_ec84_8751_e0e5,
    0x29ce_ffc9_e350_709a,
    0x29ba_1d82_ff79_37cd,
    0x29a5_45aa_a33a_61b2,
    0x2990_783b_989d_bb6d,
    0x297b_b530_ac47_669b,
    0x2966_fc84_ad74_8c77,
    0x2952_4e32_6dfa_11ac,
    0x293d_aa34_c243_4ac9,
    0x2929_1086_8150_b15a,
    0x2914_8122_84b6_99ab,
    0x28ff_fc03_a89b_e92b,
    0x28eb_8124_cbb8_cd78,
    0x28d7_1080_cf55_740b,
    0x28c2_aa12_9748_c28a,
    0x28ae_4dd5_09f7_0fbd,
    0x2899_fbc3_1050_dd2d,
    0x2885_b3d7_95d1_9156,
    0x2871_760d_887e_328e,
    0x285d_425f_d8e4_2284,
    0x2849_18c9_7a17_da61,
    0x2834_f945_61b3_a790,
    0x2820_e3ce_87d6_6923,
    0x280c_d85f_e722_4ddd,
    0x27f8_d6f4_7cbb_92d5,
    0x27e4_df87_4847_42c6,
    0x27d0_f213_4be9_f5f3,
    0x27bd_0e93_8c46_92b3,
    0x27a9_3503_107d_0e98,
    0x2795_655c_e229_303a,
    0x2781_9f9c_0d61_5198,
    0x276d_e3bb_a0b5_2323,
    0x275a_31b6_ad2c_6f61,
    0x2746_8988_4645_df2d,
    0x2732_eb2b_81f5_be98,
    0x271f_569b_78a4_c265,
    0x270b_cbd3_452e_ce24,
    0x26f8_4ace_04e1_bae9,
    0x26e4_d386_d77c_1ea1,
    0x26d1_65f8_df2c_13fd,
    0x26be_021f_408e_0302,
    0x26aa_a7f5_22ab_6a2d,
    0x2697_5775_aef9_a839,
    0x2684_109c_1158_c678,
    0x2670_d363_7812_43cf,
    0x265d_9fc7_13d7_e045,
    0x264a_75c2_17c2_6930,
    0x2637_554f_b950_85ff,
    0x2624_3e6b_3065_8595,
    0x2611_310f_b748_2c42,
    0x25fe_2d38_8aa1_8258,
    0x25eb_32e0_e97b_a354,
    0x25d8_4204_1540_8d9d,
    0x25c5_5a9d_51b8_f2e4,
    0x25b2_7ca7_e50b_0913,
    0x259f_a81f_17b9_5bd5,
    0x258c_dcfe_34a1_9ebc,
    0x257a_1b40_88fb_7ff3,
    0x2567_62e1_6457_7b8d,
    0x2554_b3dc_189d_af6c,
    0x2542_0e2b_fa0c_afb7,
    0x252f_71cc_5f38_5bef,
    0x251c_deb8_a108_b48d,
    0x250a_54ec_1ab8_b141,
    0x24f7_d462_29d5_17c0,
    0x24e5_5d16_2e3b_5324,
    0x24d2_ef03_8a18_4bea,
    0x24c0_8a25_a1e7_4074,
    0x24ae_2e77_dc70_9e31,
    0x249b_dbf5_a2c8_db49,
    0x2489_929a_604f_50e3,
    0x2477_5261_82ad_1600,
    0x2465_1b46_79d3_dae0,
    0x2452_ed44_b7fc_c505,
    0x2440_c857_b1a7_4bbc,
    0x242e_ac7a_dd98_153d,
    0x241c_99a9_b4d7_d460,
    0x240a_8fdf_b2b2_26db,
    0x23f8_8f18_54b4_7418,
    0x23e6_974f_1aac_cc97,
    0x23d4_a87f_86a8_c9e1,
    0x23c2_c2a5_1cf4_6f0c,
    0x23b0_e5bb_6419_09cc,
    0x239f_11bd_e4dc_141b,
    0x238d_46a8_2a3e_1664,
    0x237b_8475_c179_8a46,
    0x2369_cb22_3a01_bde1,
    0x2358_1aa9_2581_b7b7,
    0x2346_7306_17db_1b12,
    0x2334_d434_a725_0cfd,
    0x2323_3e30_6bab_19cc,
    0x2311_b0f4_ffec_1b2f,
    0x2300_2c7e_0099_1ece,
    0x22ee_b0c7_0c94_4d7b,
    0x22dd_3dcb_c4ef_d2e3,
    0x22cb_d387_ccec_c5da,
    0x22ba_71f6_c9fa_1126,
    0x22a9_1914_63b3_5cdf,
    0x2297_c8dc_43df_f851,
    0x2286_814a_1671_c471,
    0x2275_4259_8984_1edb,
    0x2264_0c06_4d5a_cd55,
    0x2252_de4c_1460_e9e0,
    0x2241_b926_9327_cf56,
    0x2230_9c91_8066_068e,
    0x221f_8888_94f6_3406,
    0x220e_7d07_8bd6_061d,
    0x21fd_7a0a_2225_23d0,
    0x21ec_7f8c_1724_1c04,
    0x21db_8d89_2c33_5557,
    0x21ca_a3fd_24d1_fe74,
    0x21b9_c2e3_c69c_fef6,
    0x21a8_ea38_d94d_e8ce,
    0x2198_19f8_26b9_ea32,
    0x2187_521d_7ad0_c012,
    0x2176_92a4_a39b_a914,
    0x2165_db89_713c_5917,
    0x2155_2cc7_b5eb_ed38,
    0x2144_865b_45f9_e065,
    0x2133_e83f_f7cb_0070,
    0x2123_5271_a3d8_63a3,
    0x2112_c4ec_24ae_5ee5,
    0x2102_3fab_56eb_7c59,
    0x20f1_c2ab_193f_7289,
    0x20e1_4de7_4c6a_1c0c,
    0x20d0_e15b_d33a_6fbd,
    0x20c0_7d04_928d_7969,
    0x20b0_20dd_714d_530a,
    0x209f_cce2_5870_1e80,
    0x208f_810f_32f6_ffce,
    0x207f_3d5f_eded_17dc,
    0x206f_01d0_7866_7fb7,
    0x205e_ce5c_c37f_4459,
    0x204e_a300_c25a_62ef,
    0x203e_7fb8_6a20_c5a0,
    0x202e_647f_b200_40d8,
    0x201e_5152_932a_9117,
    0x200e_462d_08d4_5939,
    0x1ffe_430b_1034_2142,
    0x1fee_47e8_a881_55b3,
    0x1fde_54c1_d2f3_474e,
    0x1fce_6992_92c0_2b6e,
    0x1fbe_8656_ed1c_1cca,
    0x1fae_ab0a_e938_1ccb,
    0x1f9e_d7aa_9041_1555,
    0x1f8f_0c31_ed5e_db0e,
    0x1f7f_489d_0db3_3030,
    0x1f6f_8ce8_0058_c7ca,
    0x1f5f_d90e_d662_498c,
    0x1f50_2d0d_a2d9_5609,
    0x1f40_88e0_7abd_8b78,
    0x1f30_ec83_7503_8af8,
    0x1f21_57f2_aa93_fe4a,
    0x1f11_cb2a_364a_9e0c,
    0x1f02_4626_34f5_3870,
    0x1ef2_c8e2_c552_b86f,
    0x1ee3_535c_0812_2d7a,
    0x1ed3_e58e_1fd1_d3a3,
    0x1ec4_7f75_311e_1c48,
    0x1eb5_210d_6270_b735,
    0x1ea5_ca52_dc2f_9c40,
    0x1e96_7b41_c8ac_1564,
    0x1e87_33d6_5421_c959,
    0x1e77_f40c_acb5_c69b,
    0x1e68_bbe1_0275_8efb,
    0x1e59_8b4f_8756_239e,
    0x1e4a_6254_6f33_117b,
    0x1e3b_40eb_efcd_7e53,
    0x1e2c_2712_40cb_3620,
    0x1e1d_14c3_9bb5_b8ff,
    0x1e0e_09fc_3bf9_4992,
    0x1dff_06b8_5ee3_fbdc,
    0x1df0_0af4_43a4_c492,
    0x1de1_16ac_2b4a_88ec,
    0x1dd2_29dc_58c3_2ee1,
    0x1dc3_4481_10da_adea,
    0x1db4_6696_9a3a_2030,
    0x1da5_9019_3d66_d438,
    0x1d96_c105_44c1_5f05,
    0x1d87_f956_fc84_aeaf,
    0x1d79_390a_b2c5_1d71,
    0x1d6a_801c_b76f_8531,
    0x1d5b_ce89_5c48_5378,
    0x1d4d_244c_f4ea_9de5,
    0x1d3e_8163_d6c7_3713,
    0x1d2f_e5ca_5923_c3f4,
    0x1d21_517c_d519_d1a7,
    0x1d12_c477_a595_ebb7,
    0x1d04_3eb7_2756_b2de,
    0x1cf5_c037_b8eb_f42f,
    0x1ce7_48f5_bab5_c0bb,
    0x1cd8_d8ed_8ee3_85ac,
    0x1cca_701b_9973_24cc,
    0x1cbc_0e7c_4030_0d8a,
    0x1cad_b40b_eab2_5667,
    0x1c9f_60c7_025d_d6e2,
    0x1c91_14a9_f261_41ca,
    0x1c82_cfb1_27b5_4011,
    0x1c74_91d9_111b_8c06,
    0x1c66_5b1e_1f1e_0d04,
    0x1c58_2b7c_c40d_f399,
    0x1c4a_02f1_7402_d616,
    0x1c3b_e178_a4d9_cd98,
    0x1c2d_c70e_ce34_937e,
    0x1c1f_b3b0_6978_9f50,
    0x1c11_a759_f1ce_451a,
    0x1c03_a207_e41f_d438,
    0x1bf5_a3b6_bf18_b68b,
    0x1be7_ac63_0324_902a,
    0x1bd9_bc09_326e_5f78,
    0x1bcb_d2a5_d0df_9db1,
    0x1bbd_f035_641f_5fe7,
    0x1bb0_14b4_7391_7865,
    0x1ba2_401f_8855_988e,
    0x1b94_7273_2d46_7322,
    0x1b86_abab_eef8_def6,
    0x1b78_ebc6_5bba_fa19,
    0x1b6b_32bf_0393_4d64,
    0x1b5d_8092_783f_f083,
    0x1b4f_d53d_4d35_ae5e,
    0x1b42_30bc_179f_29f8,
    0x1b34_930b_6e5c_03bb,
    0x1b26_fc27_e9ff_ff2f,
    0x1b19_6c0e_24d2_291e,
    0x1b0b_e2ba_bacb_fe27,
    0x1afe_602a_4998_91bd,
    0x1af0_e459_7093_b58f,
    0x1ae3_6f44_d0c9_2160,
    0x1ad6_00e9_0cf3_9b4f,
    0x1ac8_9942_c97c_207b,
    0x1abb_384e_ac79_0e29,
    0x1aad_de09_5dad_4b40,
    0x1aa0_8a6f_8687_7240,
    0x1a93_3d7d_d220_fb9b,
    0x1a85_f730_ed3d_687c,
    0x1a78_b785_8649_6df5,
    0x1a6b_7e78_4d5a_20a1,
    0x1a5e_4c05_f42c_20a1,
    0x1a51_202b_2e22_c612,
    0x1a43_fae4_b047_4de1,
    0x1a36_dc2f_3148_0711,
    0x1a29_c407_6977_8064,
    0x1a1c_b26a_12cb_b66f,
    0x1a0f_a753_e8dd_421c,
    0x1a02_a2c1_a8e6_878a,
    0x19f5_a4b0_11c2_e560,
    0x19e8_ad1b_e3ed_e483,
    0x19db_bc01_e182_6833,
    0x19ce_d15e_ce39_de94,
    0x19c1_ed2f_6f6b_719b,
    0x19b5_0f70_8c0b_3864,
    0x19a8_381e_eca9_68f0,
    0x199b_6737_5b71_8a46,
    0x198e_9cb6_a429_a702,
    0x1981_d899_9431_8045,
    0x1975_1adc_fa81_c10a,
    0x1968_637d_a7ab_31ea,
    0x195b_b278_6dd5_ed39,
    0x194f_07ca_20c0_9396,
    0x1942_636f_95bf_80d9,
    0x1935_c565_a3bc_0166,
    0x1929_2da9_2333_87ea,
    0x191c_9c36_ee36_e378,
    0x1910_110b_e069_760e,
    0x1903_8c24_d700_6b81,
    0x18f7_0d7e_b0c1_f0c4,
    0x18ea_9516_4e04_6b9f,
    0x18de_22e8_90ad_b2c2,
    0x18d1_b6f2_5c32_4640,
    0x18c5_5130_9594_8869,
    0x18b8_f1a0_2363_f70f,
    0x18ac_983d_edbc_6525,
    0x18a0_4506_de45_34cb,
    0x1893_f7f7_e030_91b3,
    0x1887_b10d_e03a_abf3,
    0x187b_7045_cca8_f32e,
    0x186f_359c_9549_5229,
    0x1863_010f_2b71_6abe,
    0x1856_d29a_81fd_d232,
    0x184a_aa3b_8d51_4de8,
    0x183e_87ef_4354_1081,
    0x1832_6bb2_9b72_f74f,
    0x1826_5582_8e9e_c834,
    0x181a_455c_174b_6fdd,
    0x180e_3b3c_316f_4062,
    0x1802_371f_da82_303b,
    0x17f6_3904_117d_19aa,
    0x17ea_40e5_d6d8_fa6f,
    0x17de_4ec2_2c8e_33ec,
    0x17d2_6296_1613_cba0,
    0x17c6_7c5e_985e_ac07,
    0x17ba_9c18_b9e0_e5d7,
    0x17ae_c1c1_8288_f19a,
    0x17a2_ed55_fbc0_f1ad,
    0x1797_1ed3_306d_f498,
];

fn whole_entry(k: usize) -> u64
    requires { k < 35 }
    ensures { result ≡ whole k }
{
    if k < 6 {
        return NEAR_WHOLES[k];
    }
    FAR_WHOLES[k - 6]
}

// The table, for a caller that asks for many: where a constant is read all of it is written out first.
pub fn fraction_table() -> [u64; 512]
    ensures { result ≡ fraction_table }
{
    FRACTIONS
}

// The same as a value that is known to be the table: who has one gets e^−u by it, and not what some array gives.
#[derive(Drop)]
pub struct FractionTable {
    pub entries: [u64; 512],
    pub ghost own: { entries ≡ fraction_table },
}

impl FractionTable {
    pub fn new() -> Self
        ensures { result.entries ≡ fraction_table }
    {
        Self {
            entries: fraction_table(),
        }
    }

    // e^−u.
    pub fn exp_neg(&self, u: f64) -> f64
        ensures { result ≡ exp_neg u }
    {
        exp_neg_by(&self.entries, u)
    }
}

// Entry i of a table that is lent: whatever that holds, no more than 1.
fn fraction_entry(lent: &[u64; 512], i: usize) -> u64
    requires { i < 512 }
    ensures { result ≡ entry_of lent.now i }
{
    let entry = lent[i];
    if entry > 0x4000_0000_0000_0000 {
        return 0x4000_0000_0000_0000;
    }
    entry
}

// a·b·2^-62, the rest cut off.
fn product(a: u64, b: u64) -> u64
    requires { (a ≤ 2 ^ 62) × (b ≤ 2 ^ 62) }
    ensures { result ≡ times a b }
{
    (u128::from(a) * u128::from(b) >> 62) as u64
}

// e^−f for an f below 1/512: the terms of its series up to the fifth power.
fn short_series(f: u64) -> u64
    requires { f < 2 ^ 53 }
    ensures { result ≡ short_series f }
{
    let f2 = product(f, f);
    let f3 = product(f, f2);
    let f4 = product(f2, f2);
    let f5 = product(f2, f3);
    0x4000_0000_0000_0000 + f2 / 2 + f4 / 24 - (f + f3 / 6 + f5 / 120)
}

// e^−u for u = w·2^-57: the product of its three parts.
fn exp_units(lent: &[u64; 512], w: u64) -> u64
    requires { w < 35 * 2 ^ 57 }
    ensures { (result ≡ units_by lent.now w) × (result ≤ 2 ^ 62) }
{
    let whole = whole_entry((w / 0x200_0000_0000_0000) as usize);
    let fraction = fraction_entry(lent, (w / 0x1_0000_0000_0000 % 512) as usize);
    product(
        product(whole, fraction),
        short_series(w % 0x1_0000_0000_0000 * 32),
    )
}

// u·2^57, the rest cut off, from the fields of u's pattern.
fn scaled(u: f64) -> u64
    requires { T (le zero_float u) × T (lt u cut) }
    ensures { result ≡ multiple u / 2 ^ 1017 }
{
    let bits = f64::to_bits(u);
    let field = bits / 0x10_0000_0000_0000 % 0x800;
    let digits = bits % 0x10_0000_0000_0000 + 0x10_0000_0000_0000;
    if field < 965 {
        return 0;
    }
    if field < 1018 {
        return digits >> (1018 - field);
    }
    digits << (field - 1018)
}

// e^−u by a table that is lent, which is `fraction_table`'s where the answer is to be e^−u. An infinite u gives 0 and a NaN gives a NaN; −0 counts as 0,
// and below zero it is a NaN.
// kept: any array, where a `FractionTable` could stand, since it answers by whatever that holds (docs/STATEMENTS.md: `exp_neg_by`).
pub fn exp_neg_by(lent: &[u64; 512], u: f64) -> f64
    ensures { result ≡ exp_neg_by lent.now u }
{
    if u >= 35.0 {
        return 0.0;
    }
    if u >= 0.0 {
        let y = exp_units(lent, scaled(u));
        return ((y + 256) / 512) as f64 * 1.1102230246251565e-16;
    }
    0.0 / 0.0
}

// e^−u.
pub fn exp_neg(u: f64) -> f64
    ensures { result ≡ exp_neg u }
{
    FractionTable::new().exp_neg(u)
}

// e^−u of each number of a list, as far as the area goes: the table is written out once for all of them.
pub fn exp_neg_each(us: &[f64], out: &mut [f64])
    ensures { out.new ≡ written 0 (min (length us.now) (length out.old))
        (λ i. exp_neg (slice_index_or us.now i nan)) out.old }
{
    let table = FractionTable::new();
    for i in 0..us.len().min(out.len()) {
        out[i] = table.exp_neg(us[i]);
    }
}
